// Finding 36: the signatures of lines, and of a Conjunction's two sides, beside each other. specs/Merging.antt says what is asked and told.
#![tactic(auto)]

ghost use Rattle.std.specs.Prelude.{length, drop, ◌+◌, ◌*◌, ◌≤◌};
ghost use Rattle.checker_signatures.specs.Rows.{rows, identifiers_of};
ghost use Rattle.checker_merging.specs.Merging.{DeclaredAsk, OneTold, DeclaredTold, RowsAsk, RowsTold, NewTold};

use checker_dictionary::index::find_name;
use checker_signatures::tables::find;
use words::word;

// The type at p is that of the row with this identifier among the m at base, if there is one.
fn agrees(a: &[u32], d: &[u32], work: &[u32], base: usize, m: usize, id: usize, p: usize) -> bool
    requires { DeclaredAsk a.now d.now work.now base m p }
    ensures { OneTold a.now d.now work.now base m p id result }
{
    let r = find(work, base, m, id);
    if r < m {
        return types_cells::type_words::same_type(a, d, p, word(work, base + 2 * r + 1));
    }
    true
}

// The identifiers of a Decl, the words from j on of its part, with the type at p, beside the m rows at base.
pub fn declared_agree(
    a: &[u32],
    d: &[u32],
    work: &[u32],
    base: usize,
    m: usize,
    part: &[u32],
    j: usize,
    p: usize,
) -> bool
    requires { DeclaredAsk a.now d.now work.now base m p }
    ensures { DeclaredTold a.now d.now work.now base m p (drop j part.now) result }
{
    for i in j..part.len() {
        if !agrees(a, d, work, base, m, word(part, i), p) {
            return false;
        }
    }
    true
}

// The k rows at source beside the m rows at base.
pub fn rows_agree(
    a: &[u32],
    d: &[u32],
    work: &[u32],
    base: usize,
    m: usize,
    source: usize,
    k: usize,
) -> bool
    requires { RowsAsk a.now d.now work.now base m source k }
    ensures { RowsTold a.now d.now work.now base m source k result }
{
    for i in 0..k {
        let at = source + 2 * i;
        let id = word(work, at);
        let place = word(work, at + 1);
        if !agrees(a, d, work, base, m, id, place) {
            return false;
        }
    }
    true
}

// No identifier among the words from j on of the part has an entry in the dictionary, whose index the work area has.
pub fn names_new(d: &[u32], work: &[u32], part: &[u32], j: usize) -> bool
    ensures { NewTold d.now work.now (drop j part.now) result }
{
    for i in j..part.len() {
        if find_name(d, work, word(part, i)) != 0 {
            return false;
        }
    }
    true
}

// The same of the k rows at source.
pub fn rows_new(d: &[u32], work: &[u32], source: usize, k: usize) -> bool
    requires { source + 2 * k ≤ length work.now }
    ensures { NewTold d.now work.now (identifiers_of (rows work.now source k)) result }
{
    for i in 0..k {
        if find_name(d, work, word(work, source + 2 * i)) != 0 {
            return false;
        }
    }
    true
}
