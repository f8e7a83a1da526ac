// Type words that cells refer to.
ghost use Rattle.std.specs.Prelude.{◌≡◌, ◌+◌, ◌<◌, ◌≤◌, ◌^◌, length, get_or};
ghost use Rattle.types_cells.specs.Layout.{area_size};
ghost use Rattle.types_cells.specs.Settled.{heap, lead_words, name_words, parts_of, Reading, Ends, Readings, SameType};

use crate::area::{DICTIONARY, POOL};
use codes::type_tags;
use words::word;

// The type word at the place p: in the caller's part of the area, or in the dictionary.
pub fn type_word(a: &[u32], d: &[u32], p: usize) -> usize
    requires { length a.now ≡ area_size }
    ensures { (result ≡ get_or (heap a.now d.now) p 0) × (result < 2 ^ 32) }
{
    if p < POOL {
        return word(a, p);
    }
    word(d, p - DICTIONARY)
}

// The words of a type before its parts, by its tag.
pub fn lead_words(t: usize) -> usize
    ensures { (result ≡ lead_words t) × (result ≤ 2) × (0 < result) }
{
    if t == type_tags::INTEGERS {
        return 1;
    }
    if t == type_tags::POWER {
        return 1;
    }
    2
}

// The words of a part's name, by the tag.
pub fn name_words(t: usize) -> usize
    ensures { (result ≡ name_words t) × (result ≤ 1) }
{
    if t == type_tags::BINDING {
        return 1;
    }
    0
}

// The number of parts of the type at p, whose tag is t.
pub fn parts_of(a: &[u32], d: &[u32], t: usize, p: usize) -> usize
    requires { (length a.now ≡ area_size) × (p < 2 ^ 40) }
    ensures { (result ≡ parts_of t (get_or (heap a.now d.now) (p + 1) 0)) × (result < 2 ^ 32) }
{
    if t == type_tags::POWER {
        return 1;
    }
    if t == type_tags::PRODUCT {
        return type_word(a, d, p + 1);
    }
    if t == type_tags::BINDING {
        return type_word(a, d, p + 1);
    }
    0
}

// The end of the type words at p.
pub fn skip(a: &[u32], d: &[u32], p: usize) -> usize
    requires { Reading a.now d.now p }
    ensures { Ends a.now d.now p result }
{
    let t = type_word(a, d, p);
    let w = name_words(t);
    let n = parts_of(a, d, t, p);
    let mut at = p + lead_words(t);
    for j in 0..n {
        at = skip(a, d, at + w);
    }
    at
}

// The types at p and q are one.
pub fn same_type(a: &[u32], d: &[u32], p: usize, q: usize) -> bool
    requires { Readings a.now d.now p q }
    ensures { SameType a.now d.now p q result }
{
    let m = skip(a, d, p) - p;
    if skip(a, d, q) - q != m {
        return false;
    }
    for j in 0..m {
        if type_word(a, d, p + j) != type_word(a, d, q + j) {
            return false;
        }
    }
    true
}
