// Types that are powers of new unknowns. The store has n cells, whose runs end at `top`.

ghost use Rattle.std.specs.Prelude.{[], ◌∷◌, ◌≤◌, length};
ghost use Rattle.types_cells.specs.Store.{run};
ghost use Rattle.checker_pieces.specs.Building.{Powered, Working};
ghost use Rattle.checker_pieces.specs.Rows.{Powering, Powers};

use crate::{formers, rows};

// The type of cell c is a power, of the new unknown cell n: 0, or the number of the finding where no typing meets it too. There are then two cells and a word more.
pub fn is_power(a: &mut [u32], d: &[u32], n: usize, top: usize, c: usize) -> u32
    requires { Working a.old d.now n top 2 (c ∷ []) }
    ensures { Powered a.old a.new d.now n top c result }
{
    types_cells::growth::new_unknown(a, n);
    formers::power(a, n + 1, top, n);
    crate::equal(a, d, n + 2, c, n + 1)
}

// The same for the m cells in the first words of `parts`, each with an unknown of its own: the cells n, n + 1, .. Their powers follow, and m words.
pub fn are_powers(a: &mut [u32], d: &[u32], n: usize, top: usize, parts: &[u32], m: usize) -> u32
    requires { (m ≤ length parts.now) × Powering a.old d.now n top (run parts.now 0 m) m }
    ensures { Powers a.old a.new d.now n top (run parts.now 0 m) m result }
{
    rows::fresh_row(a, n, m);
    rows::power_row(a, n + m, top, n, m);
    crate::all_equal(a, d, n + m + m, parts, m, n + m, 1)
}
