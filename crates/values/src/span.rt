// How far a value's words reach, by tags and counts alone.
ghost use Rattle.std.specs.Prelude.{◌≡◌, ◌^◌, ◌<◌, ◌≤◌, drop};
ghost use Rattle.values.specs.Span.{head, parts, span};

use codes::{limits, value_tags};
use words::word;

// The words of an element: its tag, its given and its number.
pub const ELEMENT_WORDS: usize = 3;

// The words of an integer, or of a set or tuple before its members or parts: its tag, and the integer or the count.
pub const HEAD: usize = 2;

// The most heads in the words of a value.
pub const HEADS: usize = limits::VALUE / HEAD;

// The words before the first part of the value at a place.
fn head(w: &[u32], at: usize) -> usize
    ensures { (result ≡ head (drop at w.now)) × (result ≤ 3) }
{
    if word(w, at) == value_tags::ELEMENT {
        return ELEMENT_WORDS;
    }
    HEAD
}

// How many values follow as its members or parts.
fn parts(w: &[u32], at: usize) -> usize
    requires { at < 2 ^ 32 }
    ensures { (result ≡ parts (drop at w.now)) × (result < 2 ^ 32) }
{
    if word(w, at) <= value_tags::ELEMENT {
        return 0;
    }
    word(w, at + 1)
}

// The words of the value at the beginning of w. Of a value of at most 64 words, that is where it ends.
pub fn span(w: &[u32]) -> usize
    ensures { (result ≡ span w.now) × (result ≤ 96) }
{
    let mut at = 0;
    let mut left = 1;
    for _i in 0..HEADS {
        if left == 0 {
            return at;
        }
        let h = head(w, at);
        left = parts(w, at) + left - 1;
        at += h;
    }
    at
}
