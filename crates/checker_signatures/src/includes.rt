// What an Include makes of a signature's rows: the stroke on each identifier, all pairs renamed at once, and finding 37.
ghost use Rattle.std.specs.Prelude.{◌≡◌, true, false, MatchOption, ◌+◌, ◌*◌, ◌≤◌, ◌<◌, ◌^◌, length};
ghost use Rattle.std.proofs.lemmas.List.Edits.{sets};
ghost use Rattle.checker_rules.specs.Strokes.{takes};
ghost use Rattle.checker_rules.specs.Signatures.{renamed, has_old};
ghost use Rattle.checker_signatures.specs.Rows.{rows, flat, renames, stroked_rows, stroke_rows, rename_rows, wrong_old_rows};
ghost use Rattle.checker_signatures.specs.Tables.{Table, Beside, Brings};

use crate::tables::{find, insert, put_row};
use codes::identifiers;
use words::word;

// The identifier can take the stroke k.
pub fn takes(k: usize, id: usize) -> bool
    ensures { result ≡ takes k id }
{
    if k == 0 {
        return true;
    }
    id % identifiers::STROKES == 0
}

// One of the m identifiers at base cannot take the stroke k.
pub fn some_stroked(work: &[u32], base: usize, m: usize, k: usize) -> bool
    requires { base + 2 * m ≤ length work.now }
    ensures { result ≡ stroked_rows k (rows work.now base m) }
{
    for j in 0..m {
        if !takes(k, word(work, base + 2 * j)) {
            return true;
        }
    }
    false
}

// The stroke k on each of the m identifiers at base.
pub fn stroke(work: &mut [u32], base: usize, m: usize, k: usize)
    requires { (base + 2 * m ≤ length work.old) × (k < 4) × (stroked_rows k (rows work.old base m) ≡ false) }
    ensures { work.new ≡ sets work.old base (flat (stroke_rows k (rows work.old base m))) }
{
    for j in 0..m {
        let at = base + 2 * j;
        let id = word(work, at);
        let place = word(work, at + 1);
        put_row(work, at, id + k, place);
    }
}

// What the pairs of the part make of the identifier.
fn renamed(part: &[u32], first: usize, id: usize) -> usize
    requires { (first ≤ length part.now) × (id < 2 ^ 32) }
    ensures { (result ≡ renamed (renames part.now first) id) × (result < 2 ^ 32) }
{
    for pair in part[first..].chunks_exact(2) {
        if word(pair, 0) == id {
            return word(pair, 1);
        }
    }
    id
}

// The m rows at `source`, renamed by the pairs of the part, as a table at base. The number of its rows.
pub fn rename(
    work: &mut [u32],
    source: usize,
    m: usize,
    base: usize,
    part: &[u32],
    first: usize,
) -> usize
    requires { (Beside (length work.old) base m source m) × (first ≤ length part.now) }
    ensures { Table work.old work.new base (rename_rows (renames part.now first) (rows work.old source m)) result }
{
    let mut n = 0;
    for j in (0..m).rev() {
        let at = source + 2 * j;
        let old = word(work, at);
        let place = word(work, at + 1);
        let id = renamed(part, first, old);
        n = insert(work, base, n, id, place);
    }
    n
}

// A pair from word i of the part on has the old name id.
fn has_old(part: &[u32], i: usize, id: usize) -> bool
    requires { i ≤ length part.now }
    ensures { result ≡ has_old id (renames part.now i) }
{
    for pair in part[i..].chunks_exact(2) {
        if word(pair, 0) == id {
            return true;
        }
    }
    false
}

// An old name of the part is none of the m identifiers at base, or stands twice.
pub fn wrong_old(work: &[u32], base: usize, m: usize, part: &[u32], first: usize) -> bool
    requires { (base + 2 * m ≤ length work.now) × (first ≤ length part.now) }
    ensures { result ≡ wrong_old_rows (renames part.now first) (rows work.now base m) }
{
    for j in 0..(part.len() - first) / 2 {
        let i = first + 2 * j;
        let old = word(part, i);
        if find(work, base, m, old) == m {
            return true;
        }
        if has_old(part, i + 2, old) {
            return true;
        }
    }
    false
}

// The m rows at `source` with the stroke k, and renamed by the pairs of the part as a table at base: the number of its rows. None where the names
// are wrong, 37.
pub fn bring(
    work: &mut [u32],
    source: usize,
    m: usize,
    base: usize,
    k: usize,
    part: &[u32],
    first: usize,
) -> Option<usize>
    requires { (Beside (length work.old) base m source m) × (k < 4) × (first ≤ length part.now) }
    ensures { let B = Brings work.old work.new source m base k (renames part.now first) in MatchOption result (B true 0) (B false) }
{
    if some_stroked(work, source, m, k) {
        return None;
    }
    stroke(work, source, m, k);
    if wrong_old(work, source, m, part, first) {
        return None;
    }
    let n = rename(work, source, m, base, part, first);
    if n < m { None } else { Some(n) }
}
