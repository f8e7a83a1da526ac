// Rules that ask equations of the cells of their operands, and Select. The store has n cells, whose runs end at `top`.

ghost use Rattle.std.specs.Prelude.{[], ◌∷◌, ℕ};
ghost use Rattle.checker_pieces.specs.Answering.{Answers, Rules};
ghost use Rattle.checker_pieces.specs.Building.{Working};
ghost use Rattle.checker_pieces.specs.Stage.{Comparing};
ghost use Rattle.checker_kinds.specs.Equations.{Relating, Related, Both, Combined, equality_items, membership_items, comparison_items, apply_items, arithmetic_items, select_items};
ghost use Rattle.checker_kinds.specs.Formers.{Derived};

use codes::findings;
use types_cells::area::SETTLED;
use types_solver::entering::Grown;

// x = y: the number of cells, or that of the finding; so of the other relations.
pub fn equality(a: &mut [u32], d: &[u32], n: usize, x: usize, y: usize) -> Result<usize, u32>
    requires { Comparing a.old d.now n (x ∷ []) y 0 }
    ensures { (top : ℕ) → Answers ℕ (λ number cells. Related a.old a.new d.now n top x y number cells equality_items) result }
{
    let number = checker_pieces::equal(a, d, n, x, y);
    if number != 0 {
        return Err(number);
    }
    Ok(n)
}

// x in y: the power of x is y.
pub fn membership(
    a: &mut [u32],
    d: &[u32],
    n: usize,
    top: usize,
    x: usize,
    y: usize,
) -> Result<usize, u32>
    requires { Working a.old d.now n top 1 (x ∷ y ∷ []) }
    ensures { Answers ℕ (λ number cells. Related a.old a.new d.now n top x y number cells membership_items) result }
{
    checker_pieces::formers::power(a, n, top, x);
    let number = checker_pieces::equal(a, d, n + 1, n, y);
    if number != 0 {
        return Err(number);
    }
    Ok(n + 1)
}

// x and y are integers: 0, and cell n is then ℤ; or the number of the finding.
fn both_integers(a: &mut [u32], d: &[u32], n: usize, x: usize, y: usize) -> u32
    requires { Relating a.old d.now n x y 1 }
    ensures { Both a.old a.new d.now n x y result }
{
    checker_pieces::formers::integer(a, n);
    let sides = [x as u32, y as u32];
    checker_pieces::all_equal(a, d, n + 1, &sides, 2, n, 0)
}

// x at most y.
pub fn comparison(a: &mut [u32], d: &[u32], n: usize, x: usize, y: usize) -> Result<usize, u32>
    requires { Relating a.old d.now n x y 1 }
    ensures { (top : ℕ) → Answers ℕ (λ number cells. Related a.old a.new d.now n top x y number cells comparison_items) result }
{
    let number = both_integers(a, d, n, x, y);
    if number != 0 {
        return Err(number);
    }
    Ok(n + 1)
}

// A sum, difference, product, quotient or remainder of x and y.
pub fn arithmetic_rule(
    a: &mut [u32],
    d: &[u32],
    n: usize,
    top: usize,
    x: usize,
    y: usize,
) -> Result<Grown, u32>
    requires { Working a.old d.now n top 1 (x ∷ y ∷ []) }
    ensures { Rules n (λ number g. Combined a.old a.new d.now n top x y number g.cell g.cells g.top 1 arithmetic_items) result }
{
    let number = both_integers(a, d, n, x, y);
    if number != 0 {
        return Err(number);
    }
    Ok(Grown {
        cell: n,
        cells: n + 1,
        top: top,
    })
}

// The function x applied to y: x is the power of the pairs of y and the result, which is cell n.
pub fn apply_rule(
    a: &mut [u32],
    d: &[u32],
    n: usize,
    top: usize,
    x: usize,
    y: usize,
) -> Result<Grown, u32>
    requires { Working a.old d.now n top 4 (x ∷ y ∷ []) }
    ensures { Rules n (λ number g. Combined a.old a.new d.now n top x y number g.cell g.cells g.top 4 apply_items) result }
{
    types_cells::growth::new_unknown(a, n);
    checker_pieces::formers::pair(a, n + 1, top, y, n);
    checker_pieces::formers::power(a, n + 2, top + 2, n + 1);
    let number = checker_pieces::equal(a, d, n + 3, x, n + 2);
    if number != 0 {
        return Err(number);
    }
    Ok(Grown {
        cell: n,
        cells: n + 3,
        top: top + 3,
    })
}

// The component id of x: that of its cell, or of its type words, which enter as a new cell.
pub fn select_rule(
    a: &mut [u32],
    d: &[u32],
    n: usize,
    top: usize,
    x: usize,
    id: usize,
) -> Result<Grown, u32>
    requires { Working a.old d.now n top 1 (x ∷ []) }
    ensures { Rules n (λ number g. Derived a.old a.new d.now n top x number g.cell g.cells g.top 1 (select_items id)) result }
{
    types_solver::acyclicity::finite(a, n);
    let v = types_solver::components::component(a, d, x, id);
    if v == 0 {
        return Err(findings::NO_COMPONENT);
    }
    if v < SETTLED {
        return Ok(Grown {
            cell: v - 1,
            cells: n,
            top: top,
        });
    }
    types_cells::growth::new_settled(a, d, n, v - SETTLED);
    Ok(Grown {
        cell: n,
        cells: n + 1,
        top: top,
    })
}
