// Theta: the binding of a schema's components, with the types that their decorated identifiers have in scope.
ghost use Rattle.std.specs.Prelude.{◌+◌, ◌*◌, ◌≤◌, length, MatchOption};
ghost use Rattle.checker_pieces.specs.Answering.{Rules};
ghost use Rattle.checker_lookup.specs.Thetas.{InScope, RowsAsked, RowPlaced, RowsPlaced, ThetaChecks, ThetaAsked, ThetaRuled};

use crate::bindings::binding;
use crate::components::component_rows;
use checker_dictionary::index::{find_name, find_schema};
use checker_dictionary::lookup::{parameters_of, type_place};
use checker_signatures::includes::{some_stroked, takes};
use checker_signatures::tables::find;
use codes::findings;
use types_cells::area::DICTIONARY;
use types_solver::entering::Grown;
use words::{store, word};

// The place of the type of an identifier in scope that is not generic.
#[tactic(auto, using(crate::proofs::ThetaLaws::scope_cases))]
pub fn place_in_scope(d: &[u32], w: &[u32], rows: usize, id: usize) -> Option<usize>
    requires { 2 * rows ≤ length w.now }
    ensures { MatchOption result (InScope d.now w.now rows id 0) (λ p. InScope d.now w.now rows id (p + 1)) }
{
    let r = find(w, 0, rows, id);
    if r < rows {
        return Some(word(w, 2 * r + 1));
    }
    let e = find_name(d, w, id);
    if e == 0 {
        return None;
    }
    if parameters_of(d, e) != 0 {
        return None;
    }
    Some(DICTIONARY + type_place(d, e))
}

// The place of the row at `at` becomes that of the decorated identifier's type in scope. False: it has none there. An identifier that
// cannot take the stroke is passed over.
#[tactic(auto, using(crate::proofs::PlacedLaws::row_cases))]
fn place_row(d: &[u32], w: &mut [u32], rows: usize, at: usize, stroke: usize) -> bool
    requires { RowsAsked d.now w.old rows at 1 stroke }
    ensures { RowPlaced d.now w.old w.new rows at stroke result }
{
    let id = word(w, at);
    if !takes(stroke, id) {
        return true;
    }
    match place_in_scope(d, w, rows, id + stroke) {
        Some(p) => {
            store(w, at + 1, p as u32);
            true
        }
        None => false,
    }
}

// The same for each of the m rows at base.
#[tactic(auto, using(crate::proofs::PlacedLaws::placing_turns))]
fn place_rows(d: &[u32], w: &mut [u32], rows: usize, base: usize, m: usize, stroke: usize) -> bool
    requires { RowsAsked d.now w.old rows base m stroke }
    ensures { RowsPlaced d.now w.old w.new rows base m stroke result }
{
    // No all(): each turn writes w.
    for j in 0..m {
        if !place_row(d, w, rows, base + 2 * j, stroke) {
            return false;
        }
    }
    true
}

// The finding of a Theta over a schema with p parameters, whose m rows stand at base; 0 where there is none.
#[tactic(auto, using(crate::proofs::CheckLaws::check_cases))]
fn checks(
    d: &[u32],
    w: &mut [u32],
    rows: usize,
    base: usize,
    m: usize,
    p: usize,
    stroke: usize,
) -> u32
    requires { RowsAsked d.now w.old rows base m stroke }
    ensures { ThetaChecks d.now w.old w.new rows base m p stroke result }
{
    if !place_rows(d, w, rows, base, m, stroke) {
        return findings::UNKNOWN_NAME;
    }
    if p != 0 {
        return findings::WRONG_COUNT;
    }
    if some_stroked(w, base, m, stroke) {
        return findings::BAD_RENAME;
    }
    0
}

// The Theta of the schema id. The words of w from base on are free.
pub fn theta_rule(
    a: &mut [u32],
    d: &[u32],
    w: &mut [u32],
    n: usize,
    top: usize,
    rows: usize,
    base: usize,
    id: usize,
    stroke: usize,
) -> Result<Grown, u32>
    requires { ThetaAsked a.old d.now w.old n top rows base stroke }
    ensures { Rules n (λ number g. ThetaRuled a.old a.new d.now w.old w.new n top rows base id stroke number g.cell g.cells g.top) result }
{
    let e = find_schema(d, w, id);
    if e == 0 {
        return Err(findings::UNKNOWN_NAME);
    }
    let m = component_rows(a, d, w, DICTIONARY + type_place(d, e), base);
    let number = checks(d, w, rows, base, m, parameters_of(d, e), stroke);
    if number != 0 {
        return Err(number);
    }
    Ok(binding(a, d, w, base, m, n, top))
}
