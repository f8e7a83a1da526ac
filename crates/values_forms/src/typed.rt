// A value against a type, by their words: finding 42's test.
ghost use Rattle.std.specs.Prelude.{◌≡◌, ◌<◌, ◌≤◌, ◌^◌, length, drop};
ghost use Rattle.values.specs.Typed.{type_step, whether, test_of, each, has_type};

use super::form::LEVELS;
use super::type_words::type_length;
use codes::{limits, type_tags};
use values::shapes::Test;
use values::span::{HEAD, span};
use words::{from, word};

// A recorded type has at most as many levels as its size.
fn type_step(own: bool, t: &[u32]) -> usize
    ensures { (result ≡ type_step own t.now) × (result ≤ length t.now) }
{
    if own {
        return type_length(t, limits::SIZE);
    }
    0
}

fn whether(b: bool) -> Test
    ensures { result ≡ whether b }
{
    if b {
        return Test::Passes;
    }
    Test::Fails
}

fn test_of(t: &[u32], w: &[u32]) -> Test
    ensures { result ≡ test_of t.now w.now }
{
    let tag = word(t, 0);
    if tag != word(w, 0) {
        return Test::Fails;
    }
    if tag == type_tags::INTEGERS {
        return Test::Passes;
    }
    let n = word(w, 1);
    if tag == type_tags::GIVEN {
        return whether(word(t, 1) == n);
    }
    if tag == type_tags::POWER {
        return Test::Each {
            own: false,
            start: 1,
            n: n,
        };
    }
    if tag == type_tags::PRODUCT {
        if word(t, 1) == n {
            return Test::Each {
                own: true,
                start: 2,
                n: n,
            };
        }
        return Test::Fails;
    }
    Test::Fails
}

// The n values at the beginning of w, after its two first words, each against its own type or all against the first of t.
#[cycle(each_has_type_of)]
fn each_has(t: &[u32], w: &[u32], own: bool, n: usize, depth: usize) -> bool
    requires { n < 2 ^ 32 }
    ensures { result ≡ each (has_type depth) own n t.now (drop 2 w.now) }
{
    let mut here = 0;
    let mut at = HEAD;
    for _i in 0..n {
        let u = from(t, here);
        let v = from(w, at);
        if !type_of(u, v, depth) {
            return false;
        }
        here += type_step(own, u);
        at += span(v);
    }
    true
}

#[cycle(each_has_type_of)]
fn type_of(t: &[u32], w: &[u32], depth: usize) -> bool
    ensures { result ≡ has_type depth t.now w.now }
{
    if depth == 0 {
        return false;
    }
    let q = test_of(t, w);
    match q {
        Test::Fails => false,
        Test::Passes => true,
        Test::Each { own, start, n } => each_has(from(t, start), w, own, n, depth - 1),
    }
}

// The value with the words w is of the type with the words t. A value of at most 64 words has at most 32 levels.
pub fn has_type(t: &[u32], w: &[u32]) -> bool
    ensures { result ≡ has_type 32 t.now w.now }
{
    type_of(t, w, LEVELS)
}
