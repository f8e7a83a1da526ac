// New cells with formers. The store has n cells, whose runs end at `top`; the new cell is number n.

ghost use Rattle.std.specs.Prelude.{[], ◌∷◌, ◌+◌, ◌≤◌, length, take};
ghost use Rattle.types_rules.specs.Former.{int, power, product};
ghost use Rattle.types_cells.specs.Layout.{first_run};
ghost use Rattle.types_cells.specs.Calls.{Making};
ghost use Rattle.checker_pieces.specs.Building.{Building, Laid, Built, Integer};

use codes::type_tags;

const INTEGERS: u32 = type_tags::INTEGERS as u32;

const POWER: u32 = type_tags::POWER as u32;

const PRODUCT: u32 = type_tags::PRODUCT as u32;

const FIRST_RUN: u32 = types_cells::area::FIRST_RUN as u32;

// ℤ.
pub fn integer(a: &mut [u32], n: usize)
    requires { Making a.old n 1 0 first_run 0 }
    ensures { Integer a.old a.new n int [] }
{
    types_cells::growth::new_cell(a, n, INTEGERS, 0, FIRST_RUN, 0);
}

// The power of cell c; the runs then end at top + 1.
pub fn power(a: &mut [u32], n: usize, top: usize, c: usize)
    requires { Building a.old n top 1 (c ∷ []) }
    ensures { Built a.old a.new n top (top + 1) 1 power (c ∷ []) }
{
    types_cells::growth::add_word(a, n, top, c as u32);
    types_cells::growth::new_cell(a, n, POWER, 0, top as u32, 1);
}

// The product of the cells x and y; the runs then end at top + 2.
pub fn pair(a: &mut [u32], n: usize, top: usize, x: usize, y: usize)
    requires { Building a.old n top 2 (x ∷ y ∷ []) }
    ensures { Built a.old a.new n top (top + 2) 2 product (x ∷ y ∷ []) }
{
    types_cells::growth::add_word(a, n, top, x as u32);
    types_cells::growth::add_word(a, n, top + 1, y as u32);
    types_cells::growth::new_cell(a, n, PRODUCT, 2, top as u32, 2);
}

// The first m words of `parts` go to the runs.
fn lay(a: &mut [u32], n: usize, top: usize, parts: &[u32], m: usize)
    requires { (m ≤ 6) × (m ≤ length parts.now) × Building a.old n top 4 (take m parts.now) }
    ensures { Laid a.old a.new n top (take m parts.now) }
{
    for (j, part) in parts[..m].iter().enumerate() {
        types_cells::growth::add_word(a, n, top + j, *part);
    }
}

// The product of the cells in the first m words of `parts`; the runs then end at top + m.
pub fn product(a: &mut [u32], n: usize, top: usize, parts: &[u32], m: usize)
    requires { (m ≤ 6) × (m ≤ length parts.now) × Building a.old n top 4 (take m parts.now) }
    ensures { Built a.old a.new n top (top + m) 4 product (take m parts.now) }
{
    lay(a, n, top, parts, m);
    types_cells::growth::new_cell(a, n, PRODUCT, m as u32, top as u32, m as u32);
}
