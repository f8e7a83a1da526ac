// Tables of rows: looked up, and with identifiers more.
ghost use Rattle.std.specs.Prelude.{◌≡◌, ◌+◌, ◌-◌, ◌*◌, ◌≤◌, ◌<◌, ◌^◌, [], ◌∷◌, length, drop};
ghost use Rattle.std.proofs.lemmas.List.Edits.{sets};
ghost use Rattle.checker_signatures.specs.Rows.{rows, flat, insert_row, merge_rows, declare_rows};
ghost use Rattle.checker_signatures.specs.Tables.{Table, Finds, Beside};

use codes::limits;
use words::{store, word};

// The words of a table for a signature's rows, of two words each; and of one with room for as many rows again.
pub const HALF: usize = 2 * limits::SIGNATURE;

pub const TABLE: usize = 2 * HALF;

// The last of the m rows at base whose identifier is id, and m if there is none.
pub fn find(work: &[u32], base: usize, m: usize, id: usize) -> usize
    requires { base + 2 * m ≤ length work.now }
    ensures { Finds work.now base m id result }
{
    for j in (0..m).rev() {
        if word(work, base + 2 * j) == id {
            return j;
        }
    }
    m
}

// A row at the word `at`.
pub fn put_row(work: &mut [u32], at: usize, id: usize, place: usize)
    requires { (at < 2 ^ 63) × (id < 2 ^ 32) × (place < 2 ^ 32) }
    ensures { work.new ≡ sets work.old at (id ∷ place ∷ []) }
{
    store(work, at, id as u32);
    store(work, at + 1, place as u32);
}

// A row before the k rows at the word `at`, which move up by one.
fn put_before(work: &mut [u32], at: usize, k: usize, id: usize, place: usize)
    requires { (at + 2 * (k + 1) ≤ length work.old) × (id < 2 ^ 32) × (place < 2 ^ 32) }
    ensures { work.new ≡ sets work.old at (flat ((id, place) ∷ rows work.old at k)) }
{
    let mut i = id;
    let mut p = place;
    for j in 0..k {
        let q = at + 2 * j;
        let x = word(work, q);
        let y = word(work, q + 1);
        put_row(work, q, i, p);
        i = x;
        p = y;
    }
    put_row(work, at + 2 * k, i, p);
}

// One identifier more in the table of m rows at base; one that is there stays as it is. The number of rows then.
pub fn insert(work: &mut [u32], base: usize, m: usize, id: usize, place: usize) -> usize
    requires { (base + 2 * (m + 1) ≤ length work.old) × (id < 2 ^ 32) × (place < 2 ^ 32) }
    ensures { Table work.old work.new base (insert_row id place (rows work.old base m)) result }
{
    for j in 0..m {
        let x = word(work, base + 2 * j);
        if x == id {
            return m;
        }
        if id < x {
            put_before(work, base + 2 * j, m - j, id, place);
            return m + 1;
        }
    }
    put_row(work, base + 2 * m, id, place);
    m + 1
}

// The k rows at `source` inserted one by one into the table of m rows at base. The number of rows then.
pub fn merge(work: &mut [u32], source: usize, k: usize, base: usize, m: usize) -> usize
    requires { Beside (length work.old) base (m + k) source k }
    ensures { Table work.old work.new base (merge_rows (rows work.old source k) (rows work.old base m)) result }
{
    let mut n = m;
    for j in 0..k {
        let at = source + 2 * j;
        let id = word(work, at);
        let place = word(work, at + 1);
        n = insert(work, base, n, id, place);
    }
    n
}

// The identifiers that the words of a node's part are from `first` on (in a Decl, 2), all with one place, inserted into the table of m rows at
// base. The number of rows then.
pub fn declare(
    work: &mut [u32],
    base: usize,
    m: usize,
    part: &[u32],
    first: usize,
    place: usize,
) -> usize
    requires { (base + 2 * (m + (length part.now - first)) ≤ length work.old) × (place < 2 ^ 32) }
    ensures { Table work.old work.new base (declare_rows (drop first part.now) place (rows work.old base m)) result }
{
    let mut n = m;
    for i in first..part.len() {
        let id = word(part, i);
        n = insert(work, base, n, id, place);
    }
    n
}
