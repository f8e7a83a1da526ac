// What the functions over nodes return. Number 0: no finding; otherwise it is the finding's number, at the node `place`.
ghost use Rattle.std.specs.Prelude.{◌≡◌, ◌<◌, ◌^◌};
ghost use Rattle.checker_closing.specs.Nodes.{VisitAt, RuledAt, VerdictAt, LinedAt};

use types_solver::entering::Grown;

// An expression: the cell of its type, the number of cells, where their runs end, and from where on the pool is clean.
#[derive(Clone, Copy)]
pub struct Visit {
    pub number: u32,
    pub place: u32,
    pub cell: usize,
    pub cells: usize,
    pub top: usize,
    pub at: usize,
}

// A predicate.
#[derive(Clone, Copy)]
pub struct Verdict {
    pub number: u32,
    pub place: u32,
}

// A Text, lines, an Include: the number of rows of its signature, and from where on the pool is clean.
#[derive(Clone, Copy)]
pub struct Lined {
    pub number: u32,
    pub place: u32,
    pub count: usize,
    pub at: usize,
}

// The answer of a rule at node k.
pub fn visit_at(number: u32, k: usize, cell: usize, cells: usize, top: usize, at: usize) -> Visit
    requires { k < 2 ^ 32 }
    ensures { VisitAt result number k cell cells top at }
{
    Visit {
        number: number,
        place: k as u32,
        cell: cell,
        cells: cells,
        top: top,
        at: at,
    }
}

// The answer of the rule of node k: what it grew, or its finding.
pub fn ruled_at(r: Result<Grown, u32>, k: usize, at: usize) -> Visit
    requires { k < 2 ^ 32 }
    ensures { RuledAt result r k at }
{
    match r {
        Ok(g) => visit_at(0, k, g.cell, g.cells, g.top, at),
        Err(number) => visit_at(number, k, 0, 0, 0, at),
    }
}

// The finding of an operand.
pub fn unvisited(number: u32, place: u32) -> Visit
    ensures { VisitAt result number place 0 0 0 0 }
{
    Visit {
        number: number,
        place: place,
        cell: 0,
        cells: 0,
        top: 0,
        at: 0,
    }
}

// The finding `number` at node k, 0 for none.
pub fn verdict_at(number: u32, k: usize) -> Verdict
    requires { k < 2 ^ 32 }
    ensures { VerdictAt result number k }
{
    Verdict {
        number: number,
        place: k as u32,
    }
}

// The finding of a part.
pub fn found(number: u32, place: u32) -> Verdict
    ensures { VerdictAt result number place }
{
    Verdict {
        number: number,
        place: place,
    }
}

// The finding `number` at node k, of a Text, a line or an Include; 0 for none.
pub fn lined_at(number: u32, k: usize, count: usize, at: usize) -> Lined
    requires { k < 2 ^ 32 }
    ensures { LinedAt result number k count at }
{
    Lined {
        number: number,
        place: k as u32,
        count: count,
        at: at,
    }
}

// The finding of a part.
pub fn unlined(number: u32, place: u32) -> Lined
    ensures { LinedAt result number place 0 0 }
{
    Lined {
        number: number,
        place: place,
        count: 0,
        at: 0,
    }
}
