// Types that enter as new cells, with cells for their parameters.
ghost use Rattle.std.specs.Prelude.{◌≡◌, ◌+◌, ◌<◌, ◌^◌};
ghost use Rattle.types_solver.specs.Growth.{arg_of, InRow, Forming, Formed, Putting, PutPart, Instancing, Instanced, InstancingParts, InstancedParts};

use codes::type_tags;
use types_cells::growth::{add_word, new_cell};
use types_cells::type_words::{lead_words, name_words, parts_of, skip, type_word};

// A cell, the number of cells, and where their runs end.
#[derive(Clone, Copy)]
pub struct Grown {
    pub cell: usize,
    pub cells: usize,
    pub top: usize,
}

// The cell of parameter v in the row of k cells from `first` on, plus 1: 0 where the tag is no parameter's, or the row has no cell for it.
fn row_cell(t: usize, v: usize, first: usize, k: usize) -> usize
    requires { first + k < 2 ^ 40 }
    ensures { InRow t v first k result }
{
    if t != type_tags::PARAMETER {
        return 0;
    }
    if v == 0 {
        return 0;
    }
    if k < v {
        return 0;
    }
    first + v
}

// The argument of a cell with the tag t: the word v after the tag, or the place of the identifiers.
fn argument(t: usize, v: usize, ids: usize) -> usize
    ensures { result ≡ arg_of t v ids }
{
    if t == type_tags::BINDING {
        return ids;
    }
    if lead_words(t) == 1 {
        return 0;
    }
    v
}

// A former, cell number n, over the m cells that stand at `top`, its identifiers after them.
fn enter_former(a: &mut [u32], n: usize, top: usize, t: usize, v: usize, m: usize) -> Grown
    requires { Forming a.old n top t v m }
    ensures { Formed a.old a.new n top t v m result.cell result.cells result.top }
{
    let ids = top + m;
    let arg = argument(t, v, ids);
    new_cell(a, n, t as u32, arg as u32, top as u32, m as u32);
    if t == type_tags::BINDING {
        return Grown {
            cell: n,
            cells: n + 1,
            top: ids + m,
        };
    }
    Grown {
        cell: n,
        cells: n + 1,
        top: ids,
    }
}

// Part number j of m, the cell c, in the run at `top`. Its identifier, if it has one, stands at `at`, and goes to the run after that.
fn put_part(
    a: &mut [u32],
    d: &[u32],
    n: usize,
    top: usize,
    m: usize,
    j: usize,
    w: usize,
    at: usize,
    c: usize,
)
    requires { Putting a.old n top m j c }
    ensures { PutPart a.old a.new d.now n top m j w at c }
{
    add_word(a, n, top + j, c as u32);
    if w == 1 {
        let id = type_word(a, d, at);
        add_word(a, n, top + m + j, id as u32);
    }
}

// The parts at `at`, from number j of m on: their cells stand at the top that is returned, their identifiers after them.
// A recursion: the run is written when all parts have entered, and each call holds its part's cell till then.
#[cycle(enter_enter_parts)]
fn enter_parts(
    a: &mut [u32],
    d: &[u32],
    n: usize,
    top: usize,
    at: usize,
    w: usize,
    m: usize,
    j: usize,
    row: usize,
    k: usize,
) -> Grown
    requires { InstancingParts a.old d.now n top at w m j row k }
    ensures { InstancedParts a.old a.new d.now n top at w m j row k result.cells result.top }
{
    if m <= j {
        return Grown {
            cell: n,
            cells: n,
            top: top,
        };
    }
    let first = enter(a, d, n, top, at + w, row, k);
    let e = skip(a, d, at + w);
    let others = enter_parts(a, d, first.cells, first.top, e, w, m, j + 1, row, k);
    put_part(a, d, others.cells, others.top, m, j, w, at, first.cell);
    others
}

// The type at p enters as new cells, where parameter i is cell row + i - 1, if i is at most k. The cells are n, and their runs end at `top`.
#[cycle(enter_enter_parts)]
pub fn enter(
    a: &mut [u32],
    d: &[u32],
    n: usize,
    top: usize,
    p: usize,
    row: usize,
    k: usize,
) -> Grown
    requires { Instancing a.old d.now n top p row k }
    ensures { Instanced a.old a.new d.now n top p row k result.cell result.cells result.top }
{
    let t = type_word(a, d, p);
    let v = type_word(a, d, p + 1);
    let c = row_cell(t, v, row, k);
    if c != 0 {
        return Grown {
            cell: c - 1,
            cells: n,
            top: top,
        };
    }
    let m = parts_of(a, d, t, p);
    let at = p + lead_words(t);
    let w = name_words(t);
    let parts = enter_parts(a, d, n, top, at, w, m, 0, row, k);
    enter_former(a, parts.cells, parts.top, t, v, m)
}
