// Rules whose types are built of their operands' types. The store has n cells, whose runs end at `top`.

ghost use Rattle.std.specs.Prelude.{List, [], ◌∷◌, ◌≡◌, ℕ, ◌+◌, ◌≤◌, ◌<◌, ◌^◌, length, take};
ghost use Rattle.checker_pieces.specs.Answering.{Rules};
ghost use Rattle.checker_pieces.specs.Building.{Building, Working};
ghost use Rattle.checker_kinds.specs.Formers.{up_from, Operating, DerivedList, Derived, number_items, integers_items, tuple_items, product_items, set_items, comprehension_items, power_rule_items};

use codes::limits;
use types_solver::entering::Grown;

// Number: ℤ.
pub fn number_rule(a: &mut [u32], n: usize, top: usize) -> Grown
    requires { Building a.old n top 1 [] }
    ensures { (d : List ℕ) → DerivedList a.old a.new d n top [] 0 result.cell result.cells result.top 1 number_items }
{
    checker_pieces::formers::integer(a, n);
    Grown {
        cell: n,
        cells: n + 1,
        top: top,
    }
}

// The set ℤ: a power of ℤ.
pub fn integers_rule(a: &mut [u32], n: usize, top: usize) -> Grown
    requires { Building a.old n top 2 [] }
    ensures { (d : List ℕ) → DerivedList a.old a.new d n top [] 0 result.cell result.cells result.top 2 integers_items }
{
    checker_pieces::formers::integer(a, n);
    checker_pieces::formers::power(a, n + 1, top, n);
    Grown {
        cell: n + 1,
        cells: n + 2,
        top: top + 1,
    }
}

// Tuple: the product of the cells in the first m words of `parts`.
pub fn tuple_rule(a: &mut [u32], n: usize, top: usize, parts: &[u32], m: usize) -> Grown
    requires { (m ≤ 6) × (m ≤ length parts.now) × Building a.old n top 4 (take m parts.now) }
    ensures { (d : List ℕ) → DerivedList a.old a.new d n top (take m parts.now) 0 result.cell result.cells result.top 4 tuple_items }
{
    checker_pieces::formers::product(a, n, top, parts, m);
    Grown {
        cell: n,
        cells: n + 1,
        top: top + m,
    }
}

// Comprehension: the power of its body's type, that of cell c.
pub fn comprehension_rule(a: &mut [u32], n: usize, top: usize, c: usize) -> Grown
    requires { Building a.old n top 1 (c ∷ []) }
    ensures { (d : List ℕ) → Derived a.old a.new d n top c 0 result.cell result.cells result.top 1 comprehension_items }
{
    checker_pieces::formers::power(a, n, top, c);
    Grown {
        cell: n,
        cells: n + 1,
        top: top + 1,
    }
}

// Power: the operand's type is a power, and the power of that the type.
pub fn power_rule(a: &mut [u32], d: &[u32], n: usize, top: usize, c: usize) -> Result<Grown, u32>
    requires { Working a.old d.now n top 4 (c ∷ []) }
    ensures { Rules n (λ number g. Derived a.old a.new d.now n top c number g.cell g.cells g.top 4 power_rule_items) result }
{
    let number = checker_pieces::powers::is_power(a, d, n, top, c);
    if number != 0 {
        return Err(number);
    }
    checker_pieces::formers::power(a, n + 2, top + 1, n);
    checker_pieces::formers::power(a, n + 3, top + 2, n + 2);
    Ok(Grown {
        cell: n + 3,
        cells: n + 4,
        top: top + 3,
    })
}

// Set: its members, the cells in the first m words of `parts`, have one type, and the power of that is the type.
pub fn set_rule(
    a: &mut [u32],
    d: &[u32],
    n: usize,
    top: usize,
    parts: &[u32],
    m: usize,
) -> Result<Grown, u32>
    requires { (m ≤ length parts.now) × Operating a.old d.now n top 2 (take m parts.now) }
    ensures { Rules n (λ number g. DerivedList a.old a.new d.now n top (take m parts.now) number g.cell g.cells g.top 2 set_items) result }
{
    types_cells::growth::new_unknown(a, n);
    let number = checker_pieces::all_equal(a, d, n + 1, parts, m, n, 0);
    if number != 0 {
        return Err(number);
    }
    checker_pieces::formers::power(a, n + 1, top, n);
    Ok(Grown {
        cell: n + 1,
        cells: n + 2,
        top: top + 1,
    })
}

// The numbers from `first` on, m of them.
fn count_up(row: &mut [u32], first: usize, m: usize)
    requires { (m ≤ length row.old) × (first + m < 2 ^ 32) }
    ensures { take m row.new ≡ up_from first m }
{
    for (j, x) in row[..m].iter_mut().enumerate() {
        *x = (first + j) as u32;
    }
}

// Product: its operands, the cells in the first m words of `parts`, are powers, and the power of the product of what they are powers of is the type.
pub fn product_rule(
    a: &mut [u32],
    d: &[u32],
    n: usize,
    top: usize,
    parts: &[u32],
    m: usize,
) -> Result<Grown, u32>
    requires { (m ≤ 6) × (m ≤ length parts.now) × Operating a.old d.now n top 17 (take m parts.now) }
    ensures { Rules n (λ number g. DerivedList a.old a.new d.now n top (take m parts.now) number g.cell g.cells g.top 17 product_items) result }
{
    let number = checker_pieces::powers::are_powers(a, d, n, top, parts, m);
    if number != 0 {
        return Err(number);
    }
    let mut row = [0u32; limits::PARTS];
    count_up(&mut row, n, m);
    let c = n + m + m;
    let end = top + m + m;
    checker_pieces::formers::product(a, c, top + m, &row, m);
    checker_pieces::formers::power(a, c + 1, end, c);
    Ok(Grown {
        cell: c + 1,
        cells: c + 2,
        top: end + 1,
    })
}
