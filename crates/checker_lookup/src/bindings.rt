// The binding of a signature, whose rows stand in the work area: a settled cell for each place, then a binding over them.
ghost use Rattle.std.specs.Prelude.{◌<◌, ◌^◌};
ghost use Rattle.types_solver.specs.Growth.{Putting};
ghost use Rattle.checker_lookup.specs.Bindings.{Places, PlacesSettled, RowPut, PuttingRows, RowsPut, Binding, Bound, SchemaSetAsked, SchemaSetTyped};

use codes::type_tags;
use types_solver::entering::Grown;
use words::word;

const BINDING: u32 = type_tags::BINDING as u32;

// The places of the m rows at base enter as cells n, n + 1, ..
fn settle_places(a: &mut [u32], d: &[u32], w: &[u32], base: usize, m: usize, n: usize)
    requires { Places a.old d.now w.now base m n }
    ensures { PlacesSettled a.old a.new d.now w.now base m n }
{
    for j in 0..m {
        types_cells::growth::new_settled(a, d, n + j, word(w, base + 2 * j + 1));
    }
}

// Part number j of m, the cell c, in the run at top, and its identifier in the run after that. The cells are n.
#[tactic(auto, using(crate::proofs::BindingLaws::row_ask, crate::proofs::BindingLaws::row_ask_name))]
fn put_row(a: &mut [u32], n: usize, top: usize, m: usize, j: usize, c: usize, id: usize)
    requires { (Putting a.old n top m j c) × (id < 2 ^ 32) }
    ensures { RowPut a.old a.new n top m j c id }
{
    types_cells::growth::add_word(a, n, top + j, c as u32);
    types_cells::growth::add_word(a, n, top + m + j, id as u32);
}

// The cells first, first + 1, .. as parts in the run at top, with the identifiers of the m rows at base. The cells are n.
fn put_rows(a: &mut [u32], w: &[u32], base: usize, m: usize, first: usize, n: usize, top: usize)
    requires { PuttingRows a.old w.now base m first n top }
    ensures { RowsPut a.old a.new w.now base m first n top m }
{
    for j in 0..m {
        put_row(a, n, top, m, j, first + j, word(w, base + 2 * j));
    }
}

// The binding of the m rows at base. The cells are n, and their runs end at top.
pub fn binding(
    a: &mut [u32],
    d: &[u32],
    w: &[u32],
    base: usize,
    m: usize,
    n: usize,
    top: usize,
) -> Grown
    requires { Binding a.old d.now w.now base m n top }
    ensures { Bound a.old a.new d.now w.now base m n top result.cell result.cells result.top }
{
    settle_places(a, d, w, base, m, n);
    let cell = n + m;
    put_rows(a, w, base, m, n, cell, top);
    let ids = top + m;
    types_cells::growth::new_cell(a, cell, BINDING, ids as u32, top as u32, m as u32);
    Grown {
        cell: cell,
        cells: cell + 1,
        top: ids + m,
    }
}

// The power of that binding, as the type of a node.
pub fn schema_set(
    a: &mut [u32],
    d: &[u32],
    w: &[u32],
    base: usize,
    m: usize,
    n: usize,
    top: usize,
) -> Grown
    requires { SchemaSetAsked a.old d.now w.now base m n top }
    ensures { SchemaSetTyped a.old a.new d.now w.now base m n top result.cell result.cells result.top }
{
    let b = binding(a, d, w, base, m, n, top);
    let cell = b.cells;
    let end = b.top;
    checker_pieces::formers::power(a, cell, end, b.cell);
    Grown {
        cell: cell,
        cells: cell + 1,
        top: end + 1,
    }
}
