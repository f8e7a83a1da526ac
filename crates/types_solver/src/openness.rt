// Finding 34: cells whose types are left open.
ghost use Rattle.std.specs.Prelude.{◌≡◌, ◌<◌};
ghost use Rattle.types_cells.specs.Layout.{max_cells, settled_from};
ghost use Rattle.types_cells.specs.Store.{frozen, tag_at};
ghost use Rattle.types_cells.specs.Settled.{word_at};
ghost use Rattle.types_solver.specs.Answers.{Left};
ghost use Rattle.types_solver.specs.Sizes.{Read};
ghost use Rattle.types_cells.specs.Calls.{Tells};

use types_cells::area::{LINKS, SETTLED, TAG, UNKNOWN, field};
use types_cells::links::find;
use words::word;

// Cell r is an unknown, and refers to no type.
fn is_open(a: &[u32], r: usize) -> bool
    requires { r < max_cells }
    ensures { Tells result ((tag_at (frozen a.now) r ≡ 0) × (word_at a.now r < settled_from)) }
{
    if field(a, r, TAG) != UNKNOWN {
        return false;
    }
    if word(a, LINKS + r) < SETTLED {
        return true;
    }
    false
}

// Is there a cell whose type the equations and the settled types leave open?
pub fn left_open(a: &[u32], n: usize) -> bool
    requires { Read a.now n }
    ensures { Left a.now n result }
{
    for i in 0..n {
        let r = find(a, i);
        if is_open(a, r) {
            return true;
        }
    }
    false
}
