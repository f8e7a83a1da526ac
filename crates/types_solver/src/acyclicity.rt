// The test for finite types, which marks sizes.
ghost use Rattle.std.specs.Prelude.{◌≡◌, ◌<◌, ◌^◌};
ghost use Rattle.types_cells.specs.Layout.{max_cells};
ghost use Rattle.types_cells.specs.Store.{frozen};
ghost use Rattle.types_solver.specs.Sizes.{arity_at, Read, Visited, Visits, Cleared, TestedFinite};
ghost use Rattle.types_cells.specs.Calls.{Known};

use crate::sizes::{OVER, capped};
use types_cells::area::{COUNT, MARKS, TAG, UNKNOWN, field, part};
use types_cells::links::link;
use words::{store, word};

// The mark of a cell that is being visited, past every size.
const VISITING: usize = OVER + 1;

// The number of parts of cell r: an unknown has none.
fn arity(a: &[u32], r: usize) -> usize
    requires { r < max_cells }
    ensures { (result ≡ arity_at (frozen a.now) r) × (result < 2 ^ 32) }
{
    if field(a, r, TAG) == UNKNOWN {
        return 0;
    }
    field(a, r, COUNT)
}

// Visits cell i, once: the cell that it is linked to, or its parts; then it gets its size as mark. False: a cell is met below itself.
fn visit(a: &mut [u32], i: usize) -> bool
    requires { Known a.old i }
    ensures { Visited a.old a.new i result }
{
    let v = word(a, MARKS + i);
    if v == VISITING {
        return false;
    }
    if v != 0 {
        return true;
    }
    let l = link(a, i);
    if l != 0 {
        let c = l - 1;
        if visit(a, c) {
            store(a, MARKS + i, word(a, MARKS + c) as u32);
            return true;
        }
        return false;
    }
    let k = arity(a, i);
    store(a, MARKS + i, VISITING as u32);
    let mut sum = 1;
    for j in 0..k {
        let c = part(a, i, j);
        if !visit(a, c) {
            return false;
        }
        sum = capped(sum + word(a, MARKS + c));
    }
    store(a, MARKS + i, sum as u32);
    true
}

fn visit_all(a: &mut [u32], n: usize) -> bool
    requires { Read a.old n }
    ensures { Visits a.old a.new n result }
{
    for i in 0..n {
        if !visit(a, i) {
            return false;
        }
    }
    true
}

fn clear_marks(a: &mut [u32], n: usize)
    requires { Read a.old n }
    ensures { Cleared a.old a.new n }
{
    for i in 0..n {
        store(a, MARKS + i, 0);
    }
}

// Do all n cells have finite types? Each is visited once; visits nest at most as deep as there are cells.
pub fn finite(a: &mut [u32], n: usize) -> bool
    requires { Read a.old n }
    ensures { TestedFinite a.old a.new n result }
{
    clear_marks(a, n);
    visit_all(a, n)
}
