// Closed pieces on the solver's store: the solutions of the store are the typings that meet the items visited so far. specs/Piece.antt has the
// invariant, specs/Stage.antt what functions ask and promise, proofs/ the laws: one for each thing that a typing rule does.
#![tactic(auto)]

pub mod closing;
pub mod formers;
pub mod powers;
pub mod rows;

ghost use Rattle.std.specs.Prelude.{[], ◌∷◌, ◌≤◌, length};
ghost use Rattle.types_cells.specs.Store.{run};
ghost use Rattle.checker_pieces.specs.Stage.{Comparing, Equated};

// The equations between the q cells in the first words of `parts` and the cells y, y + step, .., of the n, all together: 0, or the number of the finding where no
// typing meets them too.
pub fn all_equal(
    a: &mut [u32],
    d: &[u32],
    n: usize,
    parts: &[u32],
    q: usize,
    y: usize,
    step: usize,
) -> u32
    requires { (q ≤ length parts.now) × Comparing a.old d.now n (run parts.now 0 q) y step }
    ensures { Equated a.old a.new d.now n (run parts.now 0 q) y step result }
{
    types_solver::equate(a, d, n, parts, q, y, step)
}

// The same for the one equation between the cells x and y.
pub fn equal(a: &mut [u32], d: &[u32], n: usize, x: usize, y: usize) -> u32
    requires { Comparing a.old d.now n (x ∷ []) y 0 }
    ensures { Equated a.old a.new d.now n (x ∷ []) y 0 result }
{
    let side = [x as u32];
    all_equal(a, d, n, &side, 1, y, 0)
}
