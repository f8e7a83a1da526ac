// 36 and 38 of what an Include brings.
ghost use Rattle.std.specs.Prelude.{◌≡◌, ℕ, ◌+◌, ◌<◌, ◌^◌, length, get_or};
ghost use Rattle.types_cells.specs.Layout.{area_size};
ghost use Rattle.types_cells.specs.Calls.{Tells};
ghost use Rattle.types_cells.specs.Settled.{heap};
ghost use Rattle.checker_includes.specs.Filling.{Comparing, SameFilled, OneAsk, OneTold, RowsAsk, AgreeAsk, AgreeTold, SmallTold};

use checker_signatures::tables::find;
use codes::{limits, type_tags};
use types_cells::type_words::{lead_words, name_words, parts_of, same_type, skip, type_word};
use types_instances::{actual, filled_size};
use words::word;

// The k type words at p and at q are the same.
fn same_words(a: &[u32], d: &[u32], p: usize, q: usize, k: usize) -> bool
    requires { (length a.now ≡ area_size) × (p + k < 2 ^ 40) × (q + k < 2 ^ 40) }
    ensures { Tells result ((i : ℕ) → i < k → get_or (heap a.now d.now) (p + i) 0 ≡ get_or (heap a.now d.now) (q + i) 0) }
{
    for j in 0..k {
        if type_word(a, d, p + j) != type_word(a, d, q + j) {
            return false;
        }
    }
    true
}

// What the parameter at p becomes is the type at q.
fn same_actual(a: &[u32], d: &[u32], p: usize, row: &[u32], q: usize) -> bool
    requires { (Comparing a.now d.now p row.now q) × (get_or (heap a.now d.now) p 0 ≡ 6) }
    ensures { SameFilled a.now d.now p row.now q result }
{
    let i = actual(row, type_word(a, d, p + 1));
    if i == 0 {
        return same_type(a, d, p, q);
    }
    same_type(a, d, i - 1, q)
}

// The type at p, with the actuals for its parameters, is the type at q.
pub fn same_filled(a: &[u32], d: &[u32], p: usize, row: &[u32], q: usize) -> bool
    requires { Comparing a.now d.now p row.now q }
    ensures { SameFilled a.now d.now p row.now q result }
{
    let t = type_word(a, d, p);
    if t == type_tags::PARAMETER {
        return same_actual(a, d, p, row, q);
    }
    let k = lead_words(t);
    if !same_words(a, d, p, q, k) {
        return false;
    }
    let w = name_words(t);
    let n = parts_of(a, d, t, p);
    let mut at = p + k;
    let mut to = q + k;
    for j in 0..n {
        if !same_words(a, d, at, to, w) {
            return false;
        }
        let x = at + w;
        let y = to + w;
        if !same_filled(a, d, x, row, y) {
            return false;
        }
        at = skip(a, d, x);
        to = skip(a, d, y);
    }
    true
}

// The type at p, with the actuals for its parameters, is that of the row with this identifier among the m at base, if there is one.
#[tactic(auto, using(crate::proofs::AgreeLaws::one_cases))]
fn agrees(
    a: &[u32],
    d: &[u32],
    w: &[u32],
    base: usize,
    m: usize,
    id: usize,
    p: usize,
    row: &[u32],
) -> bool
    requires { OneAsk a.now d.now w.now base m p row.now }
    ensures { OneTold a.now d.now w.now base m p id row.now result }
{
    let r = find(w, base, m, id);
    if r < m {
        return same_filled(a, d, p, row, word(w, base + 2 * r + 1));
    }
    true
}

// The k rows at source, with the actuals for the parameters of their types, beside the m rows at base.
pub fn rows_agree(
    a: &[u32],
    d: &[u32],
    w: &[u32],
    base: usize,
    m: usize,
    source: usize,
    k: usize,
    row: &[u32],
) -> bool
    requires { AgreeAsk a.now d.now w.now base m source k row.now }
    ensures { AgreeTold a.now d.now w.now base m source k row.now result }
{
    for j in 0..k {
        let r = source + 2 * j;
        if !agrees(a, d, w, base, m, word(w, r), word(w, r + 1), row) {
            return false;
        }
    }
    true
}

// The types of the k rows at source, with the actuals for their parameters, are of size 32 at most.
pub fn rows_small(a: &[u32], d: &[u32], w: &[u32], source: usize, k: usize, row: &[u32]) -> bool
    requires { RowsAsk a.now d.now w.now source k row.now }
    ensures { SmallTold a.now d.now w.now source k row.now result }
{
    for j in 0..k {
        if limits::SIZE < filled_size(a, d, word(w, source + 2 * j + 1), row).size {
            return false;
        }
    }
    true
}
