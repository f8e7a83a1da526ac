// The solver over cells: what is asked of a store, and types that enter it.
#![tactic(auto)]

pub mod acyclicity;
pub mod components;
pub mod entering;
pub mod openness;
pub mod sizes;
pub mod writing;

ghost use Rattle.std.specs.Prelude.{ℕ, ◌≤◌, length};
ghost use Rattle.types_cells.specs.Store.{run};
ghost use Rattle.types_solver.specs.Equation.{Equating, MergedAll, Equation};

use crate::acyclicity::finite;
use codes::findings;
use types_cells::links::flatten;
use types_unifier::unification::merge;

// The equations between the cells in `parts` and the cells y, y + step, .., beside those that are solved: false where two different formers then stand side by
// side.
fn merge_all(a: &mut [u32], d: &[u32], parts: &[u32], y: usize, step: usize) -> bool
    requires { (n : ℕ) × Equating a.old d.now n parts.now y step }
    ensures { MergedAll a.old a.new d.now parts.now y step result }
{
    let mut cell = y;
    for part in parts {
        if !merge(a, d, *part as usize, cell) {
            return false;
        }
        cell += step;
    }
    true
}

// The equations between the q cells in the first words of `parts` and the cells y, y + step, .., of the n, all together, beside those that are solved: 0 where
// there is a solution, and links are then direct; otherwise the number of the finding.
pub fn equate(
    a: &mut [u32],
    d: &[u32],
    n: usize,
    parts: &[u32],
    q: usize,
    y: usize,
    step: usize,
) -> u32
    requires { (q ≤ length parts.now) × Equating a.old d.now n (run parts.now 0 q) y step }
    ensures { Equation a.old a.new d.now n (run parts.now 0 q) y step result }
{
    if merge_all(a, d, &parts[..q], y, step) {
        flatten(a, n);
        if finite(a, n) {
            return 0;
        }
        return findings::INSIDE_ITSELF;
    }
    findings::UNEQUAL
}
