// Rows of new cells: unknowns, and powers of cells that stand in a row.

ghost use Rattle.std.specs.Prelude.{◌+◌};
ghost use Rattle.checker_pieces.specs.Rows.{RowAsked, RowMade, PowersAsked, PowersMade};

use crate::formers;

// m unknowns one after another: cells n, n + 1, ..
pub fn fresh_row(a: &mut [u32], n: usize, m: usize)
    requires { RowAsked a.old n m }
    ensures { RowMade a.old a.new n m }
{
    for j in 0..m {
        types_cells::growth::new_unknown(a, n + j);
    }
}

// The powers of the m cells from `first` on: cells n, n + 1, .., whose runs end at `top` before and at top + m after.
pub fn power_row(a: &mut [u32], n: usize, top: usize, first: usize, m: usize)
    requires { PowersAsked a.old n top first m }
    ensures { PowersMade a.old a.new n top first m (n + m) (top + m) }
{
    for j in 0..m {
        formers::power(a, n + j, top + j, first + j);
    }
}
