// The equation of two cells.
ghost use Rattle.std.specs.Prelude.{◌≡◌, suc, ◌+◌, ◌*◌, ◌<◌, ◌^◌, set};
ghost use Rattle.types_cells.specs.Layout.{max_pending, pairs_at, seconds_at};
ghost use Rattle.types_cells.specs.Store.{frozen, run};
ghost use Rattle.types_cells.specs.Calls.{Tells, Runs};
ghost use Rattle.types_unifier.specs.Comparing.{Two, Alike, Pushing, Pushed};
ghost use Rattle.types_unifier.specs.Merging.{Open, TurnedTo, Popped, Tied, Tying, Drained, Asking, Merged};

use crate::settling::pin;
use codes::type_tags;
use types_cells::area::{
    ARGUMENT, COUNT, LINKS, PAIRS, SECONDS, SETTLED, TAG, UNKNOWN, field, held, part,
};
use types_cells::links::{find, set_link};
use words::{store, word};

// The k words at p are those at q.
fn same_run(a: &[u32], p: usize, q: usize, k: usize) -> bool
    requires { Runs (frozen a.now) p q k }
    ensures { Tells result (run (frozen a.now) p k ≡ run (frozen a.now) q k) }
{
    for j in 0..k {
        if held(a, p + j) != held(a, q + j) {
            return false;
        }
    }
    true
}

// The cells x and y have the same former and the same number of parts.
fn same_head(a: &[u32], x: usize, y: usize) -> bool
    requires { Two (frozen a.now) x y }
    ensures { Tells result (Alike (frozen a.now) x y) }
{
    let t = field(a, x, TAG);
    if t != field(a, y, TAG) {
        return false;
    }
    let k = field(a, x, COUNT);
    if k != field(a, y, COUNT) {
        return false;
    }
    let p = field(a, x, ARGUMENT);
    let q = field(a, y, ARGUMENT);
    if t == type_tags::BINDING {
        return same_run(a, p, q, k);
    }
    p == q
}

// Pair number k of those that are pending.
fn push(a: &mut [u32], k: usize, p: usize, q: usize)
    requires { (k < max_pending) × (p < 2 ^ 32) × (q < 2 ^ 32) }
    ensures { a.new ≡ set (set a.old (pairs_at + 2 * k) p) (seconds_at + 2 * k) q }
{
    store(a, PAIRS + 2 * k, p as u32);
    store(a, SECONDS + 2 * k, q as u32);
}

// The parts of x and y, pair by pair, on the k pairs that are pending.
fn push_parts(a: &mut [u32], k: usize, x: usize, y: usize) -> usize
    requires { Pushing a.old k x y }
    ensures { Pushed a.old a.new k x y result }
{
    let m = field(a, x, COUNT);
    for j in 0..m {
        let p = part(a, x, j);
        let q = part(a, y, j);
        push(a, k + j, p, q);
    }
    k + m
}

// The unknown x, a representative, is linked to y, which is given the type that x refers to.
fn tie(a: &mut [u32], d: &[u32], x: usize, y: usize) -> bool
    requires { Tying a.old d.now x y }
    ensures { Tied a.old a.new d.now x y result }
{
    let q = word(a, LINKS + x);
    set_link(a, x, y);
    if q < SETTLED {
        return true;
    }
    pin(a, d, y, q - SETTLED)
}

// The representatives x and y, of the newest pair, are merged: the number of pairs that are left, or None where there is no solution.
fn join(a: &mut [u32], d: &[u32], k: usize, x: usize, y: usize) -> Option<usize>
    requires { Popped a.old d.now k x y }
    ensures { TurnedTo a.old a.new d.now (suc k) result }
{
    if field(a, x, TAG) == UNKNOWN {
        return tie(a, d, x, y).then_some(k);
    }
    if field(a, y, TAG) == UNKNOWN {
        return tie(a, d, y, x).then_some(k);
    }
    if same_head(a, x, y) {
        set_link(a, x, y);
        return Some(push_parts(a, k, x, y));
    }
    None
}

// One turn, with the newest pair: the number of pairs that are left, or None where there is no solution.
fn turn(a: &mut [u32], d: &[u32], k: usize) -> Option<usize>
    requires { Open a.old d.now (suc k) }
    ensures { TurnedTo a.old a.new d.now (suc k) result }
{
    let x = find(a, word(a, PAIRS + 2 * k));
    let y = find(a, word(a, SECONDS + 2 * k));
    if x == y {
        return Some(k);
    }
    join(a, d, k, x, y)
}

// Merges until nothing is pending.
fn drain(a: &mut [u32], d: &[u32]) -> bool
    requires { Open a.old d.now 1 }
    ensures { Drained a.old a.new d.now 1 result }
{
    let mut k = 1;
    // A while: each turn says how many pairs are left.
    while 0 < k {
        let Some(left) = turn(a, d, k - 1) else {
            return false;
        };
        k = left;
    }
    true
}

// The equation x = y, beside those that are solved.
pub fn merge(a: &mut [u32], d: &[u32], x: usize, y: usize) -> bool
    requires { Asking a.old d.now x y }
    ensures { Merged a.old a.new d.now x y result }
{
    push(a, 0, x, y);
    drain(a, d)
}
