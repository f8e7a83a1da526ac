// Finding 35: the component of a type.
ghost use Rattle.std.specs.Prelude.{◌≡◌, ◌<◌, MatchOption};
ghost use Rattle.types_cells.specs.Store.{frozen, tag_at, run};
ghost use Rattle.types_cells.specs.Settled.{Reading, Component};
ghost use Rattle.types_solver.specs.Answers.{FirstPlace, LookingRoot, Looking, Looked};
ghost use Rattle.types_cells.specs.Calls.{Runs};

use codes::type_tags;
use types_cells::area::{ARGUMENT, COUNT, LINKS, SETTLED, TAG, UNKNOWN, field, held, part};
use types_cells::links::find;
use types_cells::type_words::{skip, type_word};
use words::word;

// The place of the type of the component id in the type at p, and 0 where there is none.
fn settled_component(a: &[u32], d: &[u32], p: usize, id: usize) -> usize
    requires { Reading a.now d.now p }
    ensures { Component a.now d.now p id result }
{
    if type_word(a, d, p) != type_tags::BINDING {
        return 0;
    }
    let n = type_word(a, d, p + 1);
    let mut at = p + 2;
    for j in 0..n {
        if type_word(a, d, at) == id {
            return at + 1;
        }
        at = skip(a, d, at + 1);
    }
    0
}

// The number of the word x among the k words at p, or None where it is not there.
fn place(a: &[u32], p: usize, k: usize, x: usize) -> Option<usize>
    requires { Runs (frozen a.now) p p k }
    ensures { MatchOption result (FirstPlace (run (frozen a.now) p k) k x k) (λ j. (j < k) × FirstPlace (run (frozen a.now) p k) k x j) }
{
    for j in 0..k {
        if held(a, p + j) == x {
            return Some(j);
        }
    }
    None
}

// The component id of the former at r, a representative: its cell plus 1, and 0 where there is none.
fn former_component(a: &[u32], d: &[u32], r: usize, id: usize) -> usize
    requires { (LookingRoot a.now d.now r) × (0 < tag_at (frozen a.now) r) }
    ensures { Looked a.now d.now r id result }
{
    if field(a, r, TAG) != type_tags::BINDING {
        return 0;
    }
    let p = field(a, r, ARGUMENT);
    let k = field(a, r, COUNT);
    match place(a, p, k, id) {
        Some(j) => part(a, r, j) + 1,
        None => 0,
    }
}

// The component id of the unknown r, a representative: SETTLED plus the place of its type, and 0 where there is none.
fn unknown_component(a: &[u32], d: &[u32], r: usize, id: usize) -> usize
    requires { (LookingRoot a.now d.now r) × (tag_at (frozen a.now) r ≡ 0) }
    ensures { Looked a.now d.now r id result }
{
    let q = word(a, LINKS + r);
    if q < SETTLED {
        return 0;
    }
    let p = settled_component(a, d, q - SETTLED, id);
    if p == 0 {
        return 0;
    }
    SETTLED + p
}

// The component id of cell i: its cell plus 1, or SETTLED plus the place of its type; 0: not in every solution.
pub fn component(a: &[u32], d: &[u32], i: usize, id: usize) -> usize
    requires { Looking a.now d.now i }
    ensures { Looked a.now d.now i id result }
{
    let r = find(a, i);
    if field(a, r, TAG) == UNKNOWN {
        return unknown_component(a, d, r, id);
    }
    former_component(a, d, r, id)
}
