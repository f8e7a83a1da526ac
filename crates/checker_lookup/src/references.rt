// References: a name's type, with an unknown for each parameter.
ghost use Rattle.checker_lookup.specs.References.{InstanceAsked, InstanceOf, TypedAt, RecordedAt, Generic, Consulted, Global, Referring, Refers, ApplyingAt, AppliedAt, ConsultedWith, GlobalApplied, ReferringWith, RefersWith};
ghost use Rattle.types_cells.specs.Settled.{Entering};
ghost use Rattle.checker_pieces.specs.Answering.{Rules};

use checker_dictionary::index::find_name;
use checker_dictionary::lookup::{parameters_of, type_place};
use checker_pieces::powers::are_powers;
use checker_pieces::rows::fresh_row;
use checker_signatures::tables::find;
use codes::findings;
use types_cells::area::DICTIONARY;
use types_solver::entering::Grown;
use words::word;

// The type at p enters as a cell, with the m cells from `first` on for its parameters. The cells are n, and their runs end at `top`.
fn instance(
    a: &mut [u32],
    d: &[u32],
    n: usize,
    top: usize,
    p: usize,
    first: usize,
    m: usize,
) -> Grown
    requires { InstanceAsked a.old d.now n top p first m }
    ensures { InstanceOf a.old a.new d.now n top p first m result.cell result.cells result.top }
{
    if m == 0 {
        types_cells::growth::new_settled(a, d, n, p);
        return Grown {
            cell: n,
            cells: n + 1,
            top: top,
        };
    }
    types_solver::entering::enter(a, d, n, top, p, first, m)
}

// The type at p, settled, as the type of a node.
fn settled(a: &mut [u32], d: &[u32], n: usize, top: usize, p: usize) -> Grown
    requires { Entering a.old d.now n p }
    ensures { TypedAt a.old a.new d.now n top p result.cell result.cells result.top }
{
    types_cells::growth::new_settled(a, d, n, p);
    Grown {
        cell: n,
        cells: n + 1,
        top: top,
    }
}

// The recorded type at p, with an unknown for each of its m parameters, as the type of a node.
fn generic(a: &mut [u32], d: &[u32], n: usize, top: usize, p: usize, m: usize) -> Grown
    requires { RecordedAt a.old d.now n top p m }
    ensures { Generic a.old a.new d.now n top p m result.cell result.cells result.top }
{
    fresh_row(a, n, m);
    instance(a, d, n + m, top, p, n, m)
}

// A recorded name, without actuals.
fn global(
    a: &mut [u32],
    d: &[u32],
    w: &[u32],
    n: usize,
    top: usize,
    id: usize,
) -> Result<Grown, u32>
    requires { Consulted a.old d.now w.now n top }
    ensures { Rules n (λ number g. Global a.old a.new d.now w.now n top id number g.cell g.cells g.top) result }
{
    let e = find_name(d, w, id);
    if e == 0 {
        return Err(findings::UNKNOWN_NAME);
    }
    let m = parameters_of(d, e);
    let p = DICTIONARY + type_place(d, e);
    Ok(generic(a, d, n, top, p, m))
}

// A name in scope, without actuals: the rows of its stack stand in w.
pub fn reference(
    a: &mut [u32],
    d: &[u32],
    w: &[u32],
    n: usize,
    top: usize,
    rows: usize,
    id: usize,
) -> Result<Grown, u32>
    requires { Referring a.old d.now w.now n top rows }
    ensures { Rules n (λ number g. Refers a.old a.new d.now w.now n top rows id number g.cell g.cells g.top) result }
{
    let r = find(w, 0, rows, id);
    if r < rows {
        return Ok(settled(a, d, n, top, word(w, 2 * r + 1)));
    }
    global(a, d, w, n, top, id)
}

// The recorded type at p with m actuals, whose cells stand in `parts`, as the type of a node: the actuals are powers of the unknowns for its parameters.
fn applied(
    a: &mut [u32],
    d: &[u32],
    n: usize,
    top: usize,
    p: usize,
    m: usize,
    parts: &[u32],
) -> Result<Grown, u32>
    requires { ApplyingAt a.old d.now n top p m parts.now }
    ensures { Rules n (λ number g. AppliedAt a.old a.new d.now n top p m parts.now number g.cell g.cells g.top) result }
{
    let number = are_powers(a, d, n, top, parts, m);
    if number != 0 {
        return Err(number);
    }
    Ok(instance(a, d, n + m + m, top + m, p, n, m))
}

// A recorded name with m actuals, one at least.
fn global_applied(
    a: &mut [u32],
    d: &[u32],
    w: &[u32],
    n: usize,
    top: usize,
    id: usize,
    parts: &[u32],
    m: usize,
) -> Result<Grown, u32>
    requires { ConsultedWith a.old d.now w.now n top parts.now m }
    ensures { Rules n (λ number g. GlobalApplied a.old a.new d.now w.now n top id parts.now m number g.cell g.cells g.top) result }
{
    let e = find_name(d, w, id);
    if e == 0 {
        return Err(findings::UNKNOWN_NAME);
    }
    if parameters_of(d, e) != m {
        return Err(findings::WRONG_COUNT);
    }
    let p = DICTIONARY + type_place(d, e);
    applied(a, d, n, top, p, m, parts)
}

// A name in scope with m actuals, whose cells stand in `parts`: the rows of the scope's stack stand in w.
pub fn ref_rule(
    a: &mut [u32],
    d: &[u32],
    w: &[u32],
    n: usize,
    top: usize,
    rows: usize,
    id: usize,
    parts: &[u32],
    m: usize,
) -> Result<Grown, u32>
    requires { ReferringWith a.old d.now w.now n top rows parts.now m }
    ensures { Rules n (λ number g. RefersWith a.old a.new d.now w.now n top rows id parts.now m number g.cell g.cells g.top) result }
{
    if m == 0 {
        return reference(a, d, w, n, top, rows, id);
    }
    let r = find(w, 0, rows, id);
    if r < rows {
        return Err(findings::WRONG_COUNT);
    }
    global_applied(a, d, w, n, top, id, parts, m)
}
