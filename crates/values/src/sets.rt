// Sets on words: membership, insertion, Apply. Members are passed one by one, by their spans.
ghost use Rattle.std.specs.Prelude.{◌≡◌, ◌^◌, ◌<◌};
ghost use Rattle.values.specs.Held.{keep};
ghost use Rattle.values.specs.Sets.{first, is_member, place, insert_at, insert, is_pair, second, apply};

use super::building::{built, put};
use super::held::{Held, hold};
use super::order::{compare, same};
use super::span::{HEAD, span};
use codes::{limits, value_tags};
use std::cmp::Ordering;
use words::{from, word};

// The tag as a word.
const SET: u32 = value_tags::SET as u32;

// Why Apply finds no value. `apply_finding` of specs/Sets.antt has each case's number.
#[derive(Clone, Copy, PartialEq, Eq)]
pub enum NoImage {
    Misfit,
    Undefined,
}

// The words of the value at the beginning of w.
pub fn first(w: &[u32]) -> &[u32]
    ensures { result.now ≡ first w.now }
{
    words::span(w, 0, span(w))
}

pub fn is_member(s: &[u32], m: &[u32]) -> bool
    ensures { result ≡ is_member s.now m.now }
{
    let n = word(s, 1);
    let mut at = HEAD;
    for _i in 0..n {
        let w = from(s, at);
        if same(first(w), m) {
            return true;
        }
        at += span(w);
    }
    false
}

// Where a member goes in a set: before the word at a place, or nowhere, as it is there already.
fn place_of(s: &[u32], m: &[u32]) -> Option<usize>
    ensures { result ≡ place s.now m.now }
{
    let n = word(s, 1);
    let mut at = HEAD;
    for _i in 0..n {
        let w = from(s, at);
        match compare(m, first(w)) {
            Ordering::Less => return Some(at),
            Ordering::Equal => return None,
            Ordering::Greater => at += span(w),
        }
    }
    Some(at)
}

fn insert_at(p: usize, s: &[u32], m: &[u32]) -> Held
    ensures { result ≡ keep (insert_at (Some p) s.now m.now) }
{
    let head = [SET, std::num::wrapping_add_u32(word(s, 1) as u32, 1)];
    let mut u = [0u32; limits::VALUE];
    let a = put(&mut u, 0, &head);
    let b = put(&mut u, a, from(words::span(s, 0, p), HEAD));
    let c = put(&mut u, b, m);
    let d = put(&mut u, c, from(s, p));
    built(u, d)
}

// The set s with the member m; over 64 words is finding 55.
pub fn insert(s: &[u32], m: &[u32]) -> Held
    ensures { result ≡ keep (insert s.now m.now) }
{
    let p = place_of(s, m);
    match p {
        None => hold(s),
        Some(at) => insert_at(at, s, m),
    }
}

fn is_pair(w: &[u32]) -> bool
    ensures { result ≡ is_pair w.now }
{
    if word(w, 0) == value_tags::TUPLE {
        return word(w, 1) == 2;
    }
    false
}

// The second part of the pair at a place of f: where it is, and how many words it has.
fn second(f: &[u32], at: usize) -> Result<(usize, usize), NoImage>
    requires { at < 2 ^ 60 }
    ensures { result ≡ second f.now at }
{
    let parts = from(f, at + HEAD);
    let k = span(parts);
    let len = span(from(parts, k));
    Ok((at + HEAD + k, len))
}

// The second part of the one pair of f whose first part is a. Every member is looked at: one that is no pair is a misfit wherever it stands.
pub fn apply(f: &[u32], a: &[u32]) -> Result<(usize, usize), NoImage>
    ensures { result ≡ apply f.now a.now }
{
    if word(f, 0) != value_tags::SET {
        return Err(NoImage::Misfit);
    }
    let n = word(f, 1);
    let mut at = HEAD;
    let mut hits: usize = 0;
    let mut hit = HEAD;
    for _i in 0..n {
        let w = from(f, at);
        if !is_pair(w) {
            return Err(NoImage::Misfit);
        }
        if same(first(from(w, HEAD)), a) {
            hits += 1;
            hit = at;
        }
        at += span(w);
    }
    if hits == 1 {
        return second(f, hit);
    }
    Err(NoImage::Undefined)
}
