// The power of a set, on words: at most three members have one of at most 64 words. The definitions are in the crate `enumeration_rules`.
ghost use Rattle.std.specs.Prelude.{◌≡◌, ℕ, ◌^◌, ◌≤◌, List, ◌∷◌, ◌++◌, length};
ghost use Rattle.values.specs.Held.{keep, Building};
ghost use Rattle.values.specs.Value.{Values, set, encode};
ghost use Rattle.enumeration_rules.specs.Enumeration.{subsets};
ghost use Rattle.enumeration_rules.specs.OnWords.{masks, taken_on, masked_on, sets_on};

use codes::{limits, value_tags};
use values::building::{built, put};
use values::held::{Held, over};
use values::span::{HEAD, span};
use words::{from, word};

// The tag as a word.
const SET: u32 = value_tags::SET as u32;

// The most members of a set whose power has at most 64 words.
const MEMBERS: usize = 3;

// The sets of at most three members in ascending order; bit i stands for member i.
const MASKS: [usize; 8] = [0, 1, 2, 4, 3, 5, 6, 7];

// The power of a set of n members and len words has HEAD + 2^n (HEAD + len) / 2 words: 2^n heads, and each member in half of the 2^n subsets. So that it has
// at most 64, 2^n (HEAD + len) is at most this.
const TWICE: usize = 2 * (limits::VALUE - HEAD);

// Of n members, how many the mask takes.
fn taken(n: usize, mut mask: usize) -> usize
    ensures { (result ≡ taken_on n mask) × (result ≤ n) }
{
    let mut k = 0;
    for _i in 0..n {
        k += mask % 2;
        mask /= 2;
    }
    k
}

// After what is built, those of the n values from w on that the mask takes.
fn chosen(u: &mut [u32], mut at: usize, n: usize, mut mask: usize, w: &[u32]) -> usize
    ensures { (ws : List ℕ) → Building u.old at ws → Building u.new result (ws ++ masked_on n mask w.now) }
{
    let mut rest = w;
    for _i in 0..n {
        let k = span(rest);
        if mask % 2 == 1 {
            at = put(u, at, words::span(rest, 0, k));
        }
        mask /= 2;
        rest = from(rest, k);
    }
    at
}

// The set of those members.
fn subset(u: &mut [u32], at: usize, n: usize, mask: usize, w: &[u32]) -> usize
    requires { n ≤ 3 }
    ensures { (ws : List ℕ) → Building u.old at ws → Building u.new result (ws ++ (3 ∷ taken_on n mask ∷ masked_on n mask w.now)) }
{
    let head = [SET, taken(n, mask) as u32];
    let a = put(u, at, &head);
    chosen(u, a, n, mask, w)
}

// The sets of the masks that are below e, which is 2 to the n.
fn subsets(u: &mut [u32], mut at: usize, n: usize, e: usize, w: &[u32]) -> usize
    requires { (n ≤ 3) × (e ≡ 2 ^ n) }
    ensures { (ws : List ℕ) → Building u.old at ws → Building u.new result (ws ++ sets_on masks n w.now) }
{
    for m in &MASKS {
        if *m < e {
            at = subset(u, at, n, *m, w);
        }
    }
    at
}

// How many subsets n members have.
fn two_to(n: usize) -> usize
    requires { n ≤ 3 }
    ensures { (result ≡ 2 ^ n) × (1 ≤ result) × (result ≤ 8) }
{
    1 << n
}

// The power of the set s. Where it has over 64 words, nothing is listed.
pub fn power(s: &[u32]) -> Held
    ensures { (vs : Values) → s.now ≡ encode (set vs) → length (encode (set vs)) ≤ 64 → result ≡ keep (encode (set (subsets vs))) }
{
    let n = word(s, 1);
    if MEMBERS < n {
        return over();
    }
    let e = two_to(n);
    if TWICE / e - HEAD < s.len() {
        return over();
    }
    let head = [SET, e as u32];
    let mut u = [0u32; limits::VALUE];
    let a = put(&mut u, 0, &head);
    let b = subsets(&mut u, a, n, e, from(s, HEAD));
    built(u, b)
}
