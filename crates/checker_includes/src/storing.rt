// Types written into the caller's part of the solver's area.
ghost use Rattle.std.specs.Prelude.{◌≡◌, List, ℕ, ◌+◌, ◌*◌, ◌≤◌, ◌<◌, ◌^◌, length, drop};
ghost use Rattle.std.proofs.lemmas.List.Edits.{sets};
ghost use Rattle.types_rules.specs.Words as types;
ghost use Rattle.checker_includes.specs.Large.{large};
ghost use Rattle.checker_includes.specs.Storing.{StoreAsk, TypeStored, OverlapTold, KeepAsk, RowsKept};
ghost use Rattle.checker_includes.specs.Keeping.{ShownAsk, ShownWords, RowAsk, RowKept, AllAsk, AllKept, MoveAsk, Moved};

use checker_pieces::closing::{settled_size, settled_words};
use checker_signatures::tables::find;
use codes::{limits, type_tags};
use types_instances::{copy_words, wipe, write_instance};
use words::{store, word};

// The stand-in of a type over the limit: the power, as often as the limit, of ℤ.
const LARGE_POWERS: usize = limits::SIZE;

const LARGE_WORDS: usize = LARGE_POWERS + 1;

const POWER: u32 = type_tags::POWER as u32;

const INTEGERS: u32 = type_tags::INTEGERS as u32;

// The words of the stand-in.
#[tactic(auto, using(crate::proofs::LargeLaws::put_turns))]
fn put_large(a: &mut [u32], at: usize)
    requires { at < 2 ^ 32 }
    ensures { a.new ≡ sets a.old at (types.words large) }
{
    // An index: a place past the end is passed over, which fill would not do.
    for j in 0..LARGE_POWERS {
        store(a, at + j, POWER);
    }
    store(a, at + LARGE_POWERS, INTEGERS);
}

// The words of the type of cell c, of the n of a closed piece, or of the stand-in, from the word `free` of w on. Where they end.
fn shown_words(a: &[u32], d: &[u32], w: &mut [u32], n: usize, c: usize, free: usize) -> usize
    requires { ShownAsk a.now d.now w.old n c free }
    ensures { ShownWords a.now d.now w.old w.new n c free result }
{
    if limits::SIZE < settled_size(a, d, n, c) {
        put_large(w, free);
        return free + LARGE_WORDS;
    }
    settled_words(a, d, n, c, w, free)
}

// The k words of w at `free`, moved to `at`; what else stood there, up to `end`, is wiped. Where the area is clean then.
#[tactic(auto, using(crate::proofs::MoveLaws::moved_some, crate::proofs::MoveLaws::moved_none))]
fn move_words(a: &mut [u32], w: &[u32], at: usize, end: usize, free: usize, k: usize) -> usize
    requires { MoveAsk a.old w.now at end free k }
    ensures { Moved a.old a.new w.now at free k result }
{
    let stop = at + k;
    copy_words(a, at, w, free, k);
    wipe(a, stop, end);
    if k == 0 {
        return at;
    }
    stop + 1
}

// The type of cell c, of the n of a closed piece, from `at` on; the words of its own inner types stand between `at` and `end`. Where the area is clean then.
pub fn store_type(
    a: &mut [u32],
    d: &[u32],
    w: &mut [u32],
    n: usize,
    c: usize,
    at: usize,
    end: usize,
    free: usize,
) -> usize
    requires { StoreAsk a.old d.now w.old n c at end free }
    ensures { TypeStored a.old a.new d.now w.old w.new n c at free result }
{
    let e = shown_words(a, d, w, n, c, free);
    move_words(a, w, at, end, free, e - free)
}

// None of the identifiers that are the words from j on of the part is in the table of m rows at base.
pub fn none_declared(w: &[u32], base: usize, m: usize, part: &[u32], j: usize) -> bool
    requires { base + 2 * m ≤ length w.now }
    ensures { (s d : List ℕ) → OverlapTold s d w.now base m (drop j part.now) result }
{
    for i in j..part.len() {
        if find(w, base, m, word(part, i)) < m {
            return false;
        }
    }
    true
}

// The row at r gets the place of the table's row with its identifier; or its type, with the actuals of `row` for the parameters, is written from e on, and
// the row gets the place `own`. Where the words end then.
fn keep_row(
    a: &[u32],
    d: &[u32],
    w: &mut [u32],
    base: usize,
    m: usize,
    r: usize,
    row: &[u32],
    own: usize,
    e: usize,
) -> usize
    requires { RowAsk a.now d.now w.old base m r row.now own e }
    ensures { RowKept a.now d.now w.old w.new base m r row.now own e result }
{
    let f = find(w, base, m, word(w, r));
    if f < m {
        let p = word(w, base + 2 * f + 1);
        store(w, r + 1, p as u32);
        return e;
    }
    let p = word(w, r + 1);
    let z = write_instance(a, d, p, row, w, e);
    store(w, r + 1, own as u32);
    z
}

// The k rows at source, one after another; the words of their types go to those of w from `free` on, and are to stand at `at`. Where they end.
#[tactic(auto, using(crate::proofs::KeepAll::all_start, crate::proofs::KeepAll::all_short))]
fn keep_all(
    a: &[u32],
    d: &[u32],
    w: &mut [u32],
    base: usize,
    m: usize,
    source: usize,
    k: usize,
    row: &[u32],
    at: usize,
    free: usize,
) -> usize
    requires { AllAsk a.now d.now w.old base m source k row.now at free }
    ensures { AllKept a.now d.now w.old w.new base m source k row.now at free result }
{
    let mut e = free;
    for j in 0..k {
        e = keep_row(a, d, w, base, m, source + 2 * j, row, at + (e - free), e);
    }
    e
}

// What an Include brings: the k rows at source, with the actuals of `row` for the parameters, beside the table of m rows at base. The actuals' words stand
// between `at` and `end`. Where the area is clean then.
pub fn keep_rows(
    a: &mut [u32],
    d: &[u32],
    w: &mut [u32],
    base: usize,
    m: usize,
    source: usize,
    k: usize,
    row: &[u32],
    at: usize,
    end: usize,
    free: usize,
) -> usize
    requires { KeepAsk a.old d.now w.old base m source k row.now at end free }
    ensures { RowsKept a.old a.new d.now w.old w.new base m source k row.now at end free result }
{
    let e = keep_all(a, d, w, base, m, source, k, row, at, free);
    move_words(a, w, at, end, free, e - free)
}
