// Entries put after spare words, and moved to another place in their area: specs/Spaced.antt.
ghost use Rattle.std.specs.Prelude.{◌≡◌, ◌+◌, ◌^◌, ◌<◌, ◌≤◌, length};
ghost use Rattle.std.proofs.lemmas.List.Edits.{sets};
ghost use Rattle.checker_rules.specs.Dictionary.{Dictionary, entries};
ghost use Rattle.checker_dictionary.specs.Holds.{Holds};
ghost use Rattle.checker_dictionary.specs.Spaced.{Spaced, Spacing, first_at, placed, PlaceAsk, Respaced};
ghost use Rattle.checker_dictionary.specs.Growth.{size_at, pair_added};

use crate::growth::{add_pair, size};
use crate::moving::{erase, shift};
use words::{copy, store, word};

// Where the entries begin.
pub fn first(d: &[u32]) -> usize
    ensures { (result ≡ first_at d.now) × (result < 2 ^ 32) }
{
    if word(d, 0) == 0 {
        return 1;
    }
    word(d, 1)
}

// An entry after n entries that end at `end`.
pub fn put(d: &mut [u32], n: usize, end: usize, entry: &[u32])
    requires { (n < 2 ^ 32) × (end + length entry.now ≤ length d.old) × (end + length entry.now < 2 ^ 32) }
    ensures { d.new ≡ sets (pair_added n end (length entry.now) d.old) end entry.now }
{
    add_pair(d, n, end as u32, entry.len() as u32);
    copy(entry, d, end);
}

// The pairs of n entries that lie one after the other from `at` on, by their lengths.
fn place_pairs(d: &mut [u32], n: usize, at: u32)
    requires { n < 2 ^ 32 }
    ensures { d.new ≡ placed n 1 at d.old }
{
    let mut o = at;
    for k in 1..n + 1 {
        let len = word(d, 2 * k);
        store(d, 2 * k - 1, o);
        o = std::num::wrapping_add_u32(o, len as u32);
    }
}

// The entries begin at `to`, with zeros after them.
pub fn place(d: &mut [u32], to: usize)
    requires { PlaceAsk d.old to }
    ensures { (D : Dictionary) → Spaced D d.old → Respaced (entries D) d.new to }
{
    let n = word(d, 0);
    let from = first(d);
    let m = size(d) - from;
    shift(d, from, m, to);
    erase(d, to + m, from + m);
    place_pairs(d, n, to as u32);
}

// Without spare words: the dictionary as the area holds it at last.
pub fn close(d: &mut [u32])
    requires { Spacing d.old × (size_at d.old < 2 ^ 32) }
    ensures { (D : Dictionary) → Spaced D d.old → Holds D d.new }
{
    let n = word(d, 0);
    place(d, 2 * n + 1);
}
