// Cells that are given a settled type, by its words.
ghost use Rattle.types_cells.specs.Settled.{Pinning, Pin, Settling};
ghost use Rattle.types_unifier.specs.Meeting.{Meeting, Naming, SameNames, SameFormer};

use codes::type_tags;
use types_cells::area::{ARGUMENT, COUNT, LINKS, SETTLED, TAG, UNKNOWN, field, held, part};
use types_cells::links::find;
use types_cells::type_words::{lead_words, name_words, parts_of, same_type, skip, type_word};
use words::{store, word};

// The n identifiers of cell r are those of the type at p.
fn same_names(a: &[u32], d: &[u32], r: usize, p: usize, n: usize) -> bool
    requires { Naming a.now d.now r p n }
    ensures { SameNames a.now d.now r p n result }
{
    let ids = field(a, r, ARGUMENT);
    let mut at = p + 2;
    for j in 0..n {
        if held(a, ids + j) != type_word(a, d, at) {
            return false;
        }
        at = skip(a, d, at + 1);
    }
    true
}

// Cell r has the former of the type at p, and as many parts.
fn same_former(a: &[u32], d: &[u32], r: usize, p: usize) -> bool
    requires { Meeting a.now d.now r p }
    ensures { SameFormer a.now d.now r p result }
{
    let t = field(a, r, TAG);
    if t != type_word(a, d, p) {
        return false;
    }
    let n = field(a, r, COUNT);
    if n != parts_of(a, d, t, p) {
        return false;
    }
    if t == type_tags::BINDING {
        return same_names(a, d, r, p, n);
    }
    if lead_words(t) == 1 {
        return true;
    }
    if field(a, r, ARGUMENT) != type_word(a, d, p + 1) {
        return false;
    }
    true
}

// The unknown r, a representative, is given the type at p.
fn settle(a: &mut [u32], d: &[u32], r: usize, p: usize) -> bool
    requires { Settling a.old d.now r p }
    ensures { Pin a.old a.new d.now r p result }
{
    let q = word(a, LINKS + r);
    if q < SETTLED {
        store(a, LINKS + r, (SETTLED + p) as u32);
        return true;
    }
    same_type(a, d, p, q - SETTLED)
}

// Cell c is given the type at p: an unknown refers to it, a former's parts are given its parts.
pub fn pin(a: &mut [u32], d: &[u32], c: usize, p: usize) -> bool
    requires { Pinning a.old d.now c p }
    ensures { Pin a.old a.new d.now c p result }
{
    let r = find(a, c);
    let t = field(a, r, TAG);
    if t == UNKNOWN {
        return settle(a, d, r, p);
    }
    if same_former(a, d, r, p) {
        let n = field(a, r, COUNT);
        let w = name_words(t);
        let mut at = p + lead_words(t);
        for j in 0..n {
            let q = at + w;
            if !pin(a, d, part(a, r, j), q) {
                return false;
            }
            at = skip(a, d, q);
        }
        return true;
    }
    false
}
