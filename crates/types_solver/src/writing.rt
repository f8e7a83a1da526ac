// Types written as words.
ghost use Rattle.std.specs.Prelude.{◌≡◌, ◌+◌, ◌<◌, ◌≤◌, ◌^◌, length};
ghost use Rattle.types_cells.specs.Layout.{max_cells, area_size};
ghost use Rattle.types_cells.specs.Store.{frozen, run};
ghost use Rattle.types_cells.specs.Settled.{heap, Reading};
ghost use Rattle.types_solver.specs.Written.{lead_at, name_at, Copied, Wrote, Writing, Typed, Leading};

use codes::type_tags;
use types_cells::area::{ARGUMENT, COUNT, LINKS, SETTLED, TAG, UNKNOWN, field, held, part};
use types_cells::links::find;
use types_cells::type_words::{skip, type_word};
use words::{store, word};

// The first words of the type with the former at r.
fn put_lead(a: &[u32], out: &mut [u32], at: usize, r: usize) -> usize
    requires { Leading a.now r at }
    ensures { Wrote out.old out.new at result (lead_at (frozen a.now) r) }
{
    let t = field(a, r, TAG);
    store(out, at, t as u32);
    if t == type_tags::INTEGERS {
        return at + 1;
    }
    if t == type_tags::POWER {
        return at + 1;
    }
    if t == type_tags::BINDING {
        store(out, at + 1, field(a, r, COUNT) as u32);
        return at + 2;
    }
    store(out, at + 1, field(a, r, ARGUMENT) as u32);
    at + 2
}

// The identifier of part j of the former at r, if it has identifiers.
fn put_name(a: &[u32], out: &mut [u32], at: usize, r: usize, j: usize) -> usize
    requires { (r < max_cells) × (j < 2 ^ 32) × (at < 2 ^ 40) }
    ensures { Wrote out.old out.new at result (name_at (frozen a.now) r j) }
{
    if field(a, r, TAG) == type_tags::BINDING {
        store(out, at, held(a, field(a, r, ARGUMENT) + j) as u32);
        return at + 1;
    }
    at
}

// The k type words at p, from `at` on: where they end.
pub fn put_words(a: &[u32], d: &[u32], p: usize, k: usize, out: &mut [u32], at: usize) -> usize
    requires { (length a.now ≡ area_size) × (p + k ≤ length (heap a.now d.now)) × (p + k < 2 ^ 40) × (at + k < 2 ^ 41) }
    ensures { Wrote out.old out.new at result (run (heap a.now d.now) p k) }
{
    for j in 0..k {
        store(out, at + j, type_word(a, d, p + j) as u32);
    }
    at + k
}

// The type whose words stand at p, from `at` on: where it ends.
pub fn put_type(a: &[u32], d: &[u32], out: &mut [u32], at: usize, p: usize) -> usize
    requires { (Reading a.now d.now p) × (at < 2 ^ 40) }
    ensures { Copied a.now d.now out.old out.new at p result }
{
    let m = skip(a, d, p) - p;
    put_words(a, d, p, m, out, at)
}

// The type of cell i, from `at` on: where it ends.
pub fn write(a: &[u32], d: &[u32], out: &mut [u32], at: usize, i: usize) -> usize
    requires { Writing a.now d.now at i }
    ensures { Typed a.now d.now out.old out.new at i result }
{
    let r = find(a, i);
    if field(a, r, TAG) == UNKNOWN {
        return put_type(a, d, out, at, word(a, LINKS + r) - SETTLED);
    }
    let k = field(a, r, COUNT);
    let mut m = put_lead(a, out, at, r);
    for j in 0..k {
        m = put_name(a, out, m, r, j);
        m = write(a, d, out, m, part(a, r, j));
    }
    m
}
