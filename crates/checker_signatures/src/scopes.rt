// Scopes: rows pushed on a stack, where tables::find looks a name up.
ghost use Rattle.std.specs.Prelude.{◌+◌, ◌*◌, ◌≤◌, ◌<◌, ◌^◌, [], ◌∷◌, length};
ghost use Rattle.checker_signatures.specs.Rows.{rows};
ghost use Rattle.checker_signatures.specs.Tables.{Beside, Pushed};

use crate::tables::put_row;
use words::word;

// A row on top of the stack of n rows at base. The number of rows then.
pub fn push_row(work: &mut [u32], base: usize, n: usize, id: usize, place: usize) -> usize
    requires { (base + 2 * (n + 1) ≤ length work.old) × (id < 2 ^ 32) × (place < 2 ^ 32) }
    ensures { Pushed work.old work.new base n ((id, place) ∷ []) result }
{
    put_row(work, base + 2 * n, id, place);
    n + 1
}

// The m rows at `source` on top of the stack of n rows at base. The number of rows then.
pub fn push(work: &mut [u32], base: usize, n: usize, source: usize, m: usize) -> usize
    requires { Beside (length work.old) (base + 2 * n) m source m }
    ensures { Pushed work.old work.new base n (rows work.old source m) result }
{
    let top = base + 2 * n;
    for j in 0..m {
        let at = source + 2 * j;
        let id = word(work, at);
        let place = word(work, at + 1);
        put_row(work, top + 2 * j, id, place);
    }
    n + m
}
