// Steps of the typing rules that visit no node.
ghost use Rattle.std.specs.Prelude.{ℕ, [], ◌∷◌, ◌+◌, ◌*◌, ◌≤◌, length, drop};
ghost use Rattle.checker_signatures.specs.Rows.{rows, identifiers_of};
ghost use Rattle.checker_merging.specs.Merging.{DeclaredAsk};
ghost use Rattle.checker_pieces.specs.Answering.{Answers};
ghost use Rattle.checker_pieces.specs.Building.{Working};
ghost use Rattle.checker_kinds.specs.Equations.{Related};
ghost use Rattle.checker_closing.specs.Leaves.{relation_items, FitsTold, NewIfTold};

use checker_includes::storing::none_declared;
use checker_kinds::equations::{comparison, equality, membership};
use checker_merging::{declared_agree, names_new, rows_new};
use codes::{kinds, limits};

// The rule of a relation of kind q, between the cells x and y of n.
pub fn related(
    a: &mut [u32],
    d: &[u32],
    n: usize,
    top: usize,
    q: usize,
    x: usize,
    y: usize,
) -> Result<usize, u32>
    requires { (21 ≤ q) × (q ≤ 23) × Working a.old d.now n top 1 (x ∷ y ∷ []) }
    ensures { Answers ℕ (λ number cells. Related a.old a.new d.now n top x y number cells (relation_items q)) result }
{
    if q == kinds::EQUAL {
        return equality(a, d, n, x, y);
    }
    if q == kinds::MEMBER {
        return membership(a, d, n, top, x, y);
    }
    comparison(a, d, n, x, y)
}

// 36 of a Decl with the part p: its identifiers beside the m rows at base. Its type is of this size, at most 33, and stands at `at`, or one over size 32
// in its stead.
#[tactic(auto, using(crate::proofs::LeafLaws::fits_small, crate::proofs::LeafLaws::fits_large))]
pub fn declared_fits(
    a: &[u32],
    d: &[u32],
    w: &[u32],
    base: usize,
    m: usize,
    p: &[u32],
    at: usize,
    size: usize,
) -> bool
    requires { DeclaredAsk a.now d.now w.now base m at }
    ensures { FitsTold a.now d.now w.now base m (drop 2 p.now) at size result }
{
    if size <= limits::SIZE {
        return declared_agree(a, d, w, base, m, p, 2, at);
    }
    none_declared(w, base, m, p, 2)
}

// 36, second case, of a Decl with the part p in an Axiom's Text: its identifiers are not global yet.
#[tactic(auto, using(crate::proofs::LeafLaws::new_global, crate::proofs::LeafLaws::new_local))]
pub fn new_if(global: bool, d: &[u32], w: &[u32], p: &[u32]) -> bool
    ensures { NewIfTold global d.now w.now (drop 2 p.now) result }
{
    if global {
        return names_new(d, w, p, 2);
    }
    true
}

// The same of the k rows at `source` that an Include brings.
#[tactic(auto, using(crate::proofs::LeafLaws::new_global, crate::proofs::LeafLaws::new_local))]
pub fn rows_new_if(global: bool, d: &[u32], w: &[u32], source: usize, k: usize) -> bool
    requires { source + 2 * k ≤ length w.now }
    ensures { NewIfTold global d.now w.now (identifiers_of (rows w.now source k)) result }
{
    if global {
        return rows_new(d, w, source, k);
    }
    true
}
