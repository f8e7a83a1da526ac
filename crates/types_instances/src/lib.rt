// Settled types and stores moved between areas: types with actuals for their parameters written out, words copied, a store saved and restored.
#![tactic(auto)]

ghost use Rattle.std.specs.Prelude.{◌≡◌, ℕ, ◌+◌, ◌*◌, ◌-◌, ◌<◌, ◌≤◌, ◌^◌, length, get_or, replicate};
ghost use Rattle.std.proofs.lemmas.List.Edits.{sets};
ghost use Rattle.types_cells.specs.Layout.{max_cells, first_run, frozen_size, area_size};
ghost use Rattle.types_cells.specs.Store.{run};
ghost use Rattle.types_cells.specs.Settled.{heap, Ends};
ghost use Rattle.types_solver.specs.Written.{Wrote};
ghost use Rattle.types_instances.specs.Filled.{place_of, Actuals, ActualSize, Filling, FilledSize, FillWriting, FillWrote};
ghost use Rattle.types_instances.specs.Moved.{saved, restored, SaveAsk, RestoreAsk};

use codes::type_tags;
use types_cells::area::{CELL_WORDS, FIRST_RUN, LINKS, RECORDS, RUNS};
use types_cells::type_words::{lead_words, name_words, parts_of, skip, type_word};
use types_solver::sizes::{capped, type_size};
use types_solver::writing::{put_type, put_words};
use words::{store, word};

// The words of a parameter: the tag, the number.
const PARAMETER_WORDS: usize = 2;

// The place of the i-th actual's type plus 1, and 0 where there is none.
pub fn actual(row: &[u32], i: usize) -> usize
    ensures { result ≡ place_of row.now i }
{
    if i == 0 {
        return 0;
    }
    let k = i - 1;
    if k < row.len() {
        return word(row, k) + 1;
    }
    0
}

// The size of what the parameter i becomes, at most 33.
fn actual_size(a: &[u32], d: &[u32], row: &[u32], i: usize) -> usize
    requires { Actuals a.now d.now row.now }
    ensures { ActualSize a.now d.now row.now i result }
{
    let q = actual(row, i);
    if q == 0 {
        return 1;
    }
    type_size(a, d, q - 1)
}

// The size of a type, at most 33, and where its words end.
#[derive(Clone, Copy)]
pub struct Sized {
    pub size: usize,
    pub end: usize,
}

// The size of the type at p with the actuals for its parameters; the end is that of the words at p.
pub fn filled_size(a: &[u32], d: &[u32], p: usize, row: &[u32]) -> Sized
    requires { Filling a.now d.now p row.now }
    ensures { FilledSize a.now d.now p row.now result.size × Ends a.now d.now p result.end }
{
    let t = type_word(a, d, p);
    if t == type_tags::PARAMETER {
        let becomes = actual_size(a, d, row, type_word(a, d, p + 1));
        let past = p + PARAMETER_WORDS;
        return Sized {
            size: becomes,
            end: past,
        };
    }
    let w = name_words(t);
    let n = parts_of(a, d, t, p);
    let mut at = p + lead_words(t);
    let mut sum = 1;
    for j in 0..n {
        let q = at + w;
        let part = filled_size(a, d, q, row);
        sum = capped(sum + part.size);
        at = part.end;
    }
    Sized { size: sum, end: at }
}

// What the parameter at p becomes, from `at` on: where it ends.
fn write_actual(a: &[u32], d: &[u32], p: usize, row: &[u32], out: &mut [u32], at: usize) -> usize
    requires { (FillWriting a.now d.now p row.now at) × (get_or (heap a.now d.now) p 0 ≡ 6) }
    ensures { FillWrote a.now d.now p row.now out.old out.new at result }
{
    let q = actual(row, type_word(a, d, p + 1));
    if q == 0 {
        return put_words(a, d, p, PARAMETER_WORDS, out, at);
    }
    put_type(a, d, out, at, q - 1)
}

// The type at p with the actuals for its parameters, from `at` on: where it ends.
fn write_filled(a: &[u32], d: &[u32], p: usize, row: &[u32], out: &mut [u32], at: usize) -> usize
    requires { FillWriting a.now d.now p row.now at }
    ensures { FillWrote a.now d.now p row.now out.old out.new at result }
{
    let t = type_word(a, d, p);
    if t == type_tags::PARAMETER {
        return write_actual(a, d, p, row, out, at);
    }
    let w = name_words(t);
    let n = parts_of(a, d, t, p);
    let k = lead_words(t);
    let mut q = p + k;
    let mut e = put_words(a, d, p, k, out, at);
    for j in 0..n {
        e = put_words(a, d, q, w, out, e);
        q += w;
        e = write_filled(a, d, q, row, out, e);
        q = skip(a, d, q);
    }
    e
}

// The same; with no actuals the type stays, and its words are copied.
pub fn write_instance(
    a: &[u32],
    d: &[u32],
    p: usize,
    row: &[u32],
    out: &mut [u32],
    at: usize,
) -> usize
    requires { FillWriting a.now d.now p row.now at }
    ensures { FillWrote a.now d.now p row.now out.old out.new at result }
{
    if row.len() == 0 {
        return put_type(a, d, out, at, p);
    }
    write_filled(a, d, p, row, out, at)
}

// The k words of `from` at `first`, written at `at`.
pub fn copy_words(a: &mut [u32], at: usize, from: &[u32], first: usize, k: usize)
    requires { (first + k ≤ length from.now) × (first + k < 2 ^ 40) × (at + k < 2 ^ 40) }
    ensures { a.new ≡ sets a.old at (run from.now first k) }
{
    for j in 0..k {
        store(a, at + j, word(from, first + j) as u32);
    }
}

// The words from `from` on, below `to`, become 0.
pub fn wipe(a: &mut [u32], from: usize, to: usize)
    requires { to < 2 ^ 40 }
    ensures { a.new ≡ sets a.old from (replicate (to - from) 0) }
{
    for i in from..to {
        store(a, i, 0);
    }
}

// The store of n cells whose runs end at top: link words, cells and runs, in out from `at` on. Where they end.
pub fn save(a: &[u32], n: usize, top: usize, out: &mut [u32], at: usize) -> usize
    requires { SaveAsk a.now n top at }
    ensures { Wrote out.old out.new at result (saved a.now n top) }
{
    let m = CELL_WORDS * n;
    let k = top - FIRST_RUN;
    copy_words(out, at, a, LINKS, n);
    copy_words(out, at + n, a, RECORDS, m);
    copy_words(out, at + n + m, a, RUNS, k);
    at + n + m + k
}

// The store that `save` wrote, back in its place.
pub fn restore(a: &mut [u32], n: usize, top: usize, from: &[u32], at: usize)
    requires { RestoreAsk from.now n top at }
    ensures { a.new ≡ restored a.old n top from.now at }
{
    let m = CELL_WORDS * n;
    let k = top - FIRST_RUN;
    copy_words(a, LINKS, from, at, n);
    copy_words(a, RECORDS, from, at + n, m);
    copy_words(a, RUNS, from, at + n + m, k);
}
