// An Include after its visit. What it brings is a table of `count` rows at `source`, with the places of the recorded types; `row` are the places of its
// actuals' types, which stand from `at` to `end`.
ghost use Rattle.std.specs.Prelude.{◌<◌, ◌^◌, get_or, take, drop};
ghost use Rattle.checker_includes.specs.Filling.{AgreeAsk};
ghost use Rattle.checker_closing.specs.Included.{RowsFound, UniteAsk, RowsUnited, LineAsk, RowsLined, IncludedAsk, IncludedTold, ShowAsk, RowsShown, BroughtAsk, BroughtTold};

use crate::leaves::rows_new_if;
use crate::results::{Lined, lined_at};
use checker_includes::filling::{rows_agree, rows_small};
use checker_includes::storing::keep_rows;
use checker_signatures::tables::{TABLE, merge};
use codes::{findings, limits};
use words::{span, word};

// 36 of the rows: beside the m rows at base, then in an Axiom's Text beside the globals. 38 of their types. 0 for none.
fn rows_finding(
    a: &[u32],
    d: &[u32],
    w: &[u32],
    base: usize,
    m: usize,
    source: usize,
    count: usize,
    row: &[u32],
    global: bool,
) -> u32
    requires { AgreeAsk a.now d.now w.now base m source count row.now }
    ensures { RowsFound a.now d.now w.now base m source count row.now global result }
{
    if !rows_agree(a, d, w, base, m, source, count, row) {
        return findings::CLASH;
    }
    if !rows_new_if(global, d, w, source, count) {
        return findings::CLASH;
    }
    if !rows_small(a, d, w, source, count, row) {
        return findings::TOO_LARGE;
    }
    0
}

// The types of identifiers that the table of m rows at base does not have are written from `at` on, and the rows merged into that table: 38 over 16 rows.
fn unite(
    a: &mut [u32],
    d: &[u32],
    w: &mut [u32],
    base: usize,
    m: usize,
    source: usize,
    count: usize,
    row: &[u32],
    at: usize,
    end: usize,
    free: usize,
    k: usize,
) -> Lined
    requires { (k < 2 ^ 32) × UniteAsk a.old d.now w.old base m source count row.now at end free }
    ensures { RowsUnited a.old a.new d.now w.old w.new base m source count row.now at end free k result.number result.place result.count result.at }
{
    let e = keep_rows(a, d, w, base, m, source, count, row, at, end, free);
    let r = merge(w, source, count, base, m);
    if limits::SIGNATURE < r {
        return lined_at(findings::TOO_LARGE, k, 0, 0);
    }
    lined_at(0, k, r, e)
}

// The rows as those of a line at node k.
fn line_rows(
    a: &mut [u32],
    d: &[u32],
    w: &mut [u32],
    base: usize,
    m: usize,
    source: usize,
    count: usize,
    row: &[u32],
    at: usize,
    end: usize,
    free: usize,
    global: bool,
    k: usize,
) -> Lined
    requires { (k < 2 ^ 32) × LineAsk a.old d.now w.old base m source count row.now at end free global }
    ensures { RowsLined a.old a.new d.now w.old w.new base m source count row.now at end free global k result.number result.place result.count result.at }
{
    let number = rows_finding(a, d, w, base, m, source, count, row, global);
    if number != 0 {
        return lined_at(number, k, 0, 0);
    }
    unite(a, d, w, base, m, source, count, row, at, end, free, k)
}

// The Include at node k with the part p, as a line: i is what its visit returned, its rows are at free, and `places` has those of its actuals' types.
pub fn included(
    a: &mut [u32],
    d: &[u32],
    w: &mut [u32],
    base: usize,
    m: usize,
    at: usize,
    free: usize,
    k: usize,
    p: &[u32],
    global: bool,
    places: &[u32],
    i: Lined,
) -> Lined
    requires { (k < 2 ^ 32) × (free < 2 ^ 32) × IncludedAsk a.old d.now w.old base m at free (take (get_or p.now 3 0) (drop 0 places.now)) global i.number i.count i.at }
    ensures { IncludedTold a.old a.new d.now w.old w.new base m at free (take (get_or p.now 3 0) (drop 0 places.now)) global k i.number i.place i.count i.at result.number result.place result.count result.at }
{
    if i.number != 0 {
        return i;
    }
    let row = span(places, 0, word(p, 3));
    line_rows(
        a,
        d,
        w,
        base,
        m,
        free,
        i.count,
        row,
        at,
        i.at,
        free + TABLE,
        global,
        k,
    )
}

// The rows as those of a schema expression at node k: 38 of their types, which are written out.
fn show_rows(
    a: &mut [u32],
    d: &[u32],
    w: &mut [u32],
    source: usize,
    count: usize,
    row: &[u32],
    at: usize,
    end: usize,
    free: usize,
    k: usize,
) -> Lined
    requires { (k < 2 ^ 32) × ShowAsk a.old d.now w.old source count row.now at end free }
    ensures { RowsShown a.old a.new d.now w.old w.new source count row.now at end free k result.number result.place result.count result.at }
{
    if !rows_small(a, d, w, source, count, row) {
        return lined_at(findings::TOO_LARGE, k, 0, 0);
    }
    let e = keep_rows(a, d, w, source, 0, source, count, row, at, end, free);
    lined_at(0, k, count, e)
}

// The Include at node k with the part p, as a schema expression.
pub fn brought(
    a: &mut [u32],
    d: &[u32],
    w: &mut [u32],
    at: usize,
    free: usize,
    k: usize,
    p: &[u32],
    places: &[u32],
    i: Lined,
) -> Lined
    requires { (k < 2 ^ 32) × (free < 2 ^ 32) × BroughtAsk a.old d.now w.old at free (take (get_or p.now 3 0) (drop 0 places.now)) i.number i.count i.at }
    ensures { BroughtTold a.old a.new d.now w.old w.new at free (take (get_or p.now 3 0) (drop 0 places.now)) k i.number i.place i.count i.at result.number result.place result.count result.at }
{
    if i.number != 0 {
        return i;
    }
    let row = span(places, 0, word(p, 3));
    show_rows(a, d, w, free, i.count, row, at, i.at, free + TABLE, k)
}
