// A Decl after the visit of its set: 33, 39 and 34 of the set, 36 in two cases, 38 of the type; then its identifiers enter the table, with 38 of the signature.
ghost use Rattle.std.specs.Prelude.{drop};
ghost use Rattle.checker_merging.specs.Merging.{DeclaredAsk};
ghost use Rattle.checker_closing.specs.Declarations.{OwnTold, EnterAsk, EnterTold, TypedAsk, TypedTold, SetAsk, SetTold, DeclAsk, DeclTold};

use crate::elements::{Element, element_type};
use crate::leaves::{declared_fits, new_if};
use crate::results::{Lined, Visit, lined_at, unlined};
use checker_signatures::tables::declare;
use codes::{findings, limits};
use types_instances::wipe;

// 36 and 38 of the identifiers of the part p, whose type is of this size and stands at `at`, beside the m rows at base; 0 for none.
fn own_finding(
    a: &[u32],
    d: &[u32],
    w: &[u32],
    base: usize,
    m: usize,
    p: &[u32],
    at: usize,
    size: usize,
    global: bool,
) -> u32
    requires { DeclaredAsk a.now d.now w.now base m at }
    ensures { OwnTold a.now d.now w.now base m (drop 2 p.now) at size global result }
{
    if !declared_fits(a, d, w, base, m, p, at, size) {
        return findings::CLASH;
    }
    if !new_if(global, d, w, p) {
        return findings::CLASH;
    }
    if limits::SIZE < size {
        return findings::TOO_LARGE;
    }
    0
}

// The identifiers enter the table: 38 of the signature. Where none is new the words of their type, from `at` to `end`, are not needed.
fn entered(
    a: &mut [u32],
    w: &mut [u32],
    base: usize,
    m: usize,
    p: &[u32],
    at: usize,
    end: usize,
    k: usize,
) -> Lined
    requires { EnterAsk w.old base m p.now at end k }
    ensures { EnterTold a.old a.new w.old w.new base m (drop 2 p.now) at end k result }
{
    let count = declare(w, base, m, p, 2, at);
    if limits::SIGNATURE < count {
        return lined_at(findings::TOO_LARGE, k, 0, 0);
    }
    if count == m {
        wipe(a, at, end);
        return lined_at(0, k, m, at);
    }
    lined_at(0, k, count, end)
}

// The identifiers with the type of the set's elements.
fn typed(
    a: &mut [u32],
    d: &[u32],
    w: &mut [u32],
    base: usize,
    m: usize,
    p: &[u32],
    at: usize,
    k: usize,
    global: bool,
    e: Element,
) -> Lined
    requires { TypedAsk a.old d.now w.old base m p.now at e.end k 0 }
    ensures { TypedTold a.old a.new d.now w.old w.new base m (drop 2 p.now) at k global 0 e.size e.end result }
{
    let number = own_finding(a, d, w, base, m, p, at, e.size, global);
    if number != 0 {
        return lined_at(number, k, 0, 0);
    }
    entered(a, w, base, m, p, at, e.end, k)
}

// The set's type is cell c of n.
fn of_set(
    a: &mut [u32],
    d: &[u32],
    w: &mut [u32],
    base: usize,
    m: usize,
    p: &[u32],
    at: usize,
    free: usize,
    k: usize,
    global: bool,
    x: Visit,
) -> Lined
    requires { SetAsk a.old d.now w.old base m p.now at free k x.cell x.cells x.top x.at }
    ensures { SetTold a.old a.new d.now w.old w.new base m (drop 2 p.now) at free k global x.cell x.cells x.top result }
{
    match element_type(a, d, w, x.cells, x.top, x.cell, at, x.at, free) {
        Ok(e) => typed(a, d, w, base, m, p, at, k, global, e),
        Err(number) => lined_at(number, k, 0, 0),
    }
}

// The Decl at node k with the part p: its set's visit was x; the signature so far is the m rows at base.
pub fn declared(
    a: &mut [u32],
    d: &[u32],
    w: &mut [u32],
    base: usize,
    m: usize,
    p: &[u32],
    at: usize,
    free: usize,
    k: usize,
    global: bool,
    x: Visit,
) -> Lined
    requires { DeclAsk a.old d.now w.old base m p.now at free k x.number x.cell x.cells x.top x.at }
    ensures { DeclTold a.old a.new d.now w.old w.new base m (drop 2 p.now) at free k global x.number x.place x.cell x.cells x.top result }
{
    if x.number != 0 {
        return unlined(x.number, x.place);
    }
    of_set(a, d, w, base, m, p, at, free, k, global, x)
}
