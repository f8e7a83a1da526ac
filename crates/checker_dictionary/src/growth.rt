// A dictionary begun in an area, and entries added to it.
ghost use Rattle.std.specs.Prelude.{◌≡◌, ◌+◌, ◌-◌, ◌*◌, ◌^◌, ◌<◌, ◌≤◌, length};
ghost use Rattle.words.specs.Loops.{run};
ghost use Rattle.checker_rules.specs.Dictionary.{Entry, Dictionary, blank, entry_words};
ghost use Rattle.checker_dictionary.specs.Holds.{Holds};
ghost use Rattle.checker_dictionary.specs.Growth.{size_at, lifted, raised, offset_raised, pair_added, grown, Appended};

use words::{clear, copy, store, word};

// An area with no entry.
pub fn begin(d: &mut [u32])
    ensures { 0 < length d.old → Holds blank d.new }
{
    clear(d);
}

// The words that the dictionary takes.
pub fn size(d: &[u32]) -> usize
    ensures { (result ≡ size_at d.now) × (result < 2 ^ 33) }
{
    let n = word(d, 0);
    if n == 0 {
        return 1;
    }
    word(d, 2 * n - 1) + word(d, 2 * n)
}

// Moves the words before `end` from `from` on two places up.
fn lift(d: &mut [u32], from: usize, end: usize)
    requires { end < 2 ^ 33 }
    ensures { d.new ≡ lifted from (end - from) d.old }
{
    for i in (from..end).rev() {
        let moved = word(d, i);
        store(d, i + 2, moved as u32);
    }
}

// Adds to the word at i, which is to fit again.
fn raise(d: &mut [u32], i: usize, more: u32)
    ensures { d.new ≡ raised i more d.old }
{
    let x = word(d, i);
    store(d, i, std::num::wrapping_add_u32(x as u32, more));
}

// Each of n offsets grows by two.
fn raise_offsets(d: &mut [u32], n: usize)
    requires { n < 2 ^ 32 }
    ensures { d.new ≡ run offset_raised 1 n d.old }
{
    for k in 1..n + 1 {
        raise(d, 2 * k - 1, 2);
    }
}

// The pair of entry n + 1, and the count of n + 1 entries.
pub fn add_pair(d: &mut [u32], n: usize, offset: u32, len: u32)
    requires { n < 2 ^ 32 }
    ensures { d.new ≡ pair_added n offset len d.old }
{
    raise(d, 0, 1);
    store(d, 2 * n + 1, offset);
    store(d, 2 * n + 2, len);
}

// An entry after n entries that end at `end`.
fn grow(d: &mut [u32], n: usize, end: usize, entry: &[u32])
    requires { (n < 2 ^ 32) × (end + 2 + length entry.now ≤ length d.old) × (length d.old < 2 ^ 32) }
    ensures { d.new ≡ grown n end entry.now d.old }
{
    lift(d, 2 * n + 1, end);
    raise_offsets(d, n);
    add_pair(d, n, (end + 2) as u32, entry.len() as u32);
    copy(entry, d, end + 2);
}

// The words of one entry more; false, and nothing changed, where they do not fit the area.
pub fn append(d: &mut [u32], entry: &[u32]) -> bool
    requires { length d.old < 2 ^ 32 }
    ensures { (D : Dictionary) (e : Entry) → Holds D d.old → entry.now ≡ entry_words e → Appended D e d.old d.new result }
{
    let n = word(d, 0);
    let end = size(d);
    if d.len() < end + 2 + entry.len() {
        return false;
    }
    grow(d, n, end, entry);
    true
}
