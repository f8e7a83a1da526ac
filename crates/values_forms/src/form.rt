// Which words are a value. For any words: a state's words are nobody's promise.
ghost use Rattle.std.specs.Prelude.{◌≡◌, [], ◌≤◌, length, drop};
ghost use Rattle.values.specs.Givens.{size_of};
ghost use Rattle.values.specs.Form.{element_shape, group_shape, shape_of, follows, group_end, value_length, is_value};

use super::givens::size_of;
use codes::{limits, value_tags};
use values::order::compare;
use values::shapes::Shape;
use values::span::{ELEMENT_WORDS, HEAD, HEADS};
use values_integers::integer;
use words::{from, span, word};

// Each level of a value has a head of its own.
pub const LEVELS: usize = HEADS;

// A count is read signed, as every word is.
const NEGATIVE: usize = integer::NEGATIVE as usize;

fn element_shape(givens: &[u32], w: &[u32]) -> Shape
    ensures { result ≡ element_shape (size_of givens.now) w.now }
{
    if w.len() < ELEMENT_WORDS {
        return Shape::Broken;
    }
    if word(w, 2) < size_of(givens, word(w, 1)) {
        return Shape::Leaf(ELEMENT_WORDS);
    }
    Shape::Broken
}

fn group_shape(tag: usize, n: usize) -> Shape
    ensures { result ≡ group_shape tag n }
{
    if tag == value_tags::SET {
        if n < NEGATIVE {
            return Shape::Set(n);
        }
        return Shape::Broken;
    }
    if tag == value_tags::TUPLE {
        if n < limits::FEWEST_PARTS {
            return Shape::Broken;
        }
        if n <= limits::PARTS {
            return Shape::Tuple(n);
        }
        return Shape::Broken;
    }
    Shape::Broken
}

fn shape_of(givens: &[u32], w: &[u32]) -> Shape
    ensures { result ≡ shape_of (size_of givens.now) w.now }
{
    if w.len() < HEAD {
        return Shape::Broken;
    }
    let tag = word(w, 0);
    if tag == value_tags::INTEGER {
        return Shape::Leaf(HEAD);
    }
    if tag == value_tags::ELEMENT {
        return element_shape(givens, w);
    }
    group_shape(tag, word(w, 1))
}

// A member is above the one before it; a part may be anything.
fn follows(ascending: bool, p: &[u32], m: &[u32]) -> bool
    ensures { result ≡ follows ascending p.now m.now }
{
    if ascending {
        return compare(p, m).is_lt();
    }
    true
}

// The place after n values of w from its third word on; 0 where one of them is none or, ascending, not above the one before it.
#[cycle(group_end_value_length)]
fn group_end(givens: &[u32], w: &[u32], n: usize, ascending: bool, depth: usize) -> usize
    requires { 2 ≤ length w.now }
    ensures { (result ≡ group_end (value_length (size_of givens.now) depth) ascending n [] (drop 2 w.now) 2) × (result ≤ length w.now) }
{
    let mut last = HEAD;
    let mut at = HEAD;
    for _i in 0..n {
        let k = value_length(givens, from(w, at), depth);
        if k == 0 {
            return 0;
        }
        if !follows(ascending, span(w, last, at - last), span(w, at, k)) {
            return 0;
        }
        last = at;
        at += k;
    }
    at
}

// The words of the value at the beginning of w, at most `depth` levels deep; 0 where none is there.
#[cycle(group_end_value_length)]
fn value_length(givens: &[u32], w: &[u32], depth: usize) -> usize
    ensures { (result ≡ value_length (size_of givens.now) depth w.now) × (result ≤ length w.now) }
{
    if depth == 0 {
        return 0;
    }
    let s = shape_of(givens, w);
    match s {
        Shape::Broken => 0,
        Shape::Leaf(n) => n,
        Shape::Set(n) => group_end(givens, w, n, true, depth - 1),
        Shape::Tuple(n) => group_end(givens, w, n, false, depth - 1),
    }
}

// The words are those of one value of at most 64 words.
pub fn is_value(givens: &[u32], w: &[u32]) -> bool
    ensures { result ≡ is_value (size_of givens.now) w.now }
{
    let len = w.len();
    if len < 1 {
        return false;
    }
    if limits::VALUE < len {
        return false;
    }
    value_length(givens, w, LEVELS) == len
}
