// The product of sets, on words, operand by operand. The definitions are in the crate `enumeration_rules`.
ghost use Rattle.std.specs.Prelude.{◌≡◌, ℕ, ◌+◌, ◌*◌, ◌^◌, ◌<◌, ◌≤◌, List, [], ◌∷◌, ◌++◌, length, nat_le};
ghost use Rattle.values.specs.Held.{keep, Building};
ghost use Rattle.values.specs.Value.{Values, nil, set, tuple, encode};
ghost use Rattle.enumeration_rules.specs.Enumeration.{each};
ghost use Rattle.enumeration_rules.specs.OnWords.{grow, longer, endings_on, tuples_on, grow_on};

use codes::{limits, value_tags};
use values::building::{built, put};
use values::held::{Held, hold, over};
use values::span::{HEAD, span};
use words::{from, word};

// The tags as words.
const SET: u32 = value_tags::SET as u32;

const TUPLE: u32 = value_tags::TUPLE as u32;

// One more than the largest word.
const WORDS: usize = 4294967296;

// After what is built, the tuple t with the part m more.
fn longer(u: &mut [u32], at: usize, t: &[u32], m: &[u32]) -> usize
    ensures { (ws : List ℕ) → Building u.old at ws → Building u.new result (ws ++ longer t.now m.now) }
{
    let head = [TUPLE, std::num::wrapping_add_u32(word(t, 1) as u32, 1)];
    let a = put(u, at, &head);
    let b = put(u, a, from(t, HEAD));
    put(u, b, m)
}

// The tuple t with each of the n values from w on.
fn endings(u: &mut [u32], mut at: usize, n: usize, t: &[u32], w: &[u32]) -> usize
    ensures { (ws : List ℕ) → Building u.old at ws → Building u.new result (ws ++ endings_on n t.now w.now) }
{
    let mut rest = w;
    for _i in 0..n {
        let k = span(rest);
        at = longer(u, at, t, words::span(rest, 0, k));
        rest = from(rest, k);
    }
    at
}

// The m tuples from p on, with each of the n values from w on.
fn tuples(u: &mut [u32], mut at: usize, m: usize, p: &[u32], n: usize, w: &[u32]) -> usize
    ensures { (ws : List ℕ) → Building u.old at ws → Building u.new result (ws ++ tuples_on m p.now n w.now) }
{
    let mut rest = p;
    for _i in 0..m {
        let k = span(rest);
        at = endings(u, at, n, words::span(rest, 0, k), w);
        rest = from(rest, k);
    }
    at
}

// The set p of tuples, with each member of the set s after each.
fn grow(p: &[u32], s: &[u32]) -> Held
    ensures { result ≡ keep (grow_on p.now s.now) }
{
    let m = word(p, 1);
    let n = word(s, 1);
    let head = [SET, (m * n % WORDS) as u32];
    let mut u = [0u32; limits::VALUE];
    let a = put(&mut u, 0, &head);
    let b = tuples(&mut u, a, m, from(p, HEAD), n, from(s, HEAD));
    built(u, b)
}

// Whether m tuples of p words together, each with the n members of s words together, have at most 64 words.
fn fits(m: usize, p: usize, n: usize, s: usize) -> bool
    requires { (m < 2 ^ 32) × (p ≤ 64) × (n < 2 ^ 32) × (s ≤ 64) }
    ensures { result ≡ nat_le (n * p + m * s) (62 + 2 * (m + n)) }
{
    n * p + m * s <= limits::VALUE - HEAD + HEAD * (m + n)
}

// The product of no operand: one tuple of no parts.
pub fn unit() -> Held
    ensures { result ≡ keep (encode (set (each tuple (nil ∷ [])))) }
{
    let w = [SET, 1, TUPLE, 0];
    hold(&w)
}

// The product p of operands, with the operand s after them. Where it has over 64 words, nothing is listed; an empty operand leaves no tuple.
pub fn extend(p: Held, s: &[u32]) -> Held
    ensures { (rs : List Values) (vs : Values) → p ≡ keep (encode (set (each tuple rs))) → s.now ≡ encode (set vs) → length (encode (set vs)) ≤ 64 → result ≡ keep (encode (set (each tuple (grow rs vs)))) }
{
    let n = word(s, 1);
    if n == 0 {
        let none = [SET, 0];
        return hold(&none);
    }
    let len = p.len;
    if limits::VALUE < len {
        return over();
    }
    if limits::VALUE < s.len() {
        return over();
    }
    let w = p.words;
    let m = word(&w, 1);
    if fits(m, len, n, s.len()) {
        return grow(words::span(&w, 0, len), s);
    }
    over()
}
