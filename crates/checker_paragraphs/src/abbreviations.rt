// An Abbreviation after the visit of its expression: 34, 36 and 38, then its entry.
ghost use Rattle.std.specs.Prelude.{◌<◌, ◌^◌, ◌+◌, get_or, take, drop};
ghost use Rattle.checker_pieces.specs.Closed.{Wording};
ghost use Rattle.checker_paragraphs.specs.Abbreviations.{TypeAsk, TypeFound, Entered, AbbreviatedAsk, AbbreviatedTold};
ghost use Rattle.checker_contracts.specs.Room.{entries_at};

use crate::ENTRIES;
use checker_closing::results::{Lined, Visit, lined_at, unlined};
use checker_entries::parameters::POOL_START;
use checker_entries::{HEAD, put_head};
use checker_merging::names_new;
use checker_pieces::closing::{close, settled_size, settled_words};
use codes::{classes, findings, limits};
use types_instances::wipe;
use words::{span, word};

// The piece of n cells, whose cell c has the type of the Abbreviation with the part p: 34, 36 of its identifier, 38 of its type; 0 for none.
fn type_finding(a: &mut [u32], d: &[u32], w: &[u32], n: usize, c: usize, p: &[u32]) -> u32
    requires { TypeAsk a.old d.now n c }
    ensures { TypeFound a.old a.new d.now w.now n c (drop 0 (take 1 (drop 1 p.now))) result }
{
    if !close(a, d, n) {
        return findings::SEVERAL;
    }
    if !names_new(d, w, span(p, 1, 1), 0) {
        return findings::CLASH;
    }
    if limits::SIZE < settled_size(a, d, n, c) {
        return findings::TOO_LARGE;
    }
    0
}

// The entry of the Abbreviation with the part p and q parameters, which has the type of cell c. The pool is empty again up to `end`.
fn enter(
    a: &mut [u32],
    d: &[u32],
    w: &mut [u32],
    n: usize,
    c: usize,
    p: &[u32],
    q: usize,
    end: usize,
)
    requires { (Wording a.old d.now n c (entries_at + 4)) × (q < 2 ^ 32) × (end < 2 ^ 40) }
    ensures { Entered a.old a.new d.now w.old w.new n c (get_or p.now 1 0) q end }
{
    let e = settled_words(a, d, n, c, w, ENTRIES + HEAD);
    put_head(w, ENTRIES, e - ENTRIES - 1, classes::NAME, word(p, 1), q);
    wipe(a, POOL_START, end);
}

// The Abbreviation at node k with the part p and q parameters: x is what the visit of its expression returned.
pub fn abbreviated(
    a: &mut [u32],
    d: &[u32],
    w: &mut [u32],
    k: usize,
    p: &[u32],
    q: usize,
    x: Visit,
) -> Lined
    requires { (k < 2 ^ 32) × (q < 2 ^ 32) × AbbreviatedAsk a.old d.now w.old (drop 0 (take 1 (drop 1 p.now))) x.number x.cell x.cells x.at }
    ensures { AbbreviatedTold a.old a.new d.now w.old w.new p.now k q x.number x.place x.cell x.cells x.at result.number result.place result.count result.at }
{
    if x.number != 0 {
        return unlined(x.number, x.place);
    }
    let number = type_finding(a, d, w, x.cells, x.cell, p);
    if number != 0 {
        return lined_at(number, k, 0, 0);
    }
    enter(a, d, w, x.cells, x.cell, p, q, x.at);
    lined_at(0, k, 1, ENTRIES)
}
