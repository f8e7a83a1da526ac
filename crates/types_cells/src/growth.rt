// New cells, and new words in their runs.
ghost use Rattle.std.specs.Prelude.{◌≡◌, ◌<◌};
ghost use Rattle.types_cells.specs.Layout.{max_cells, first_run};
ghost use Rattle.types_cells.specs.Settled.{Entering, Entered};
ghost use Rattle.types_cells.specs.Calls.{put, Making, Made, Adding, Added};

use crate::area::{ARGUMENTS, CELL_WORDS, COUNTS, FIRSTS, LINKS, RECORDS, SETTLED};
use words::store;

const UNKNOWN: u32 = crate::area::UNKNOWN as u32;

const FIRST_RUN: u32 = crate::area::FIRST_RUN as u32;

// Writes cell n.
fn put_cell(a: &mut [u32], n: usize, tag: u32, arg: u32, first: u32, count: u32)
    requires { n < max_cells }
    ensures { a.new ≡ put a.old n tag arg first count }
{
    store(a, LINKS + n, 0);
    let at = CELL_WORDS * n;
    store(a, RECORDS + at, tag);
    store(a, ARGUMENTS + at, arg);
    store(a, FIRSTS + at, first);
    store(a, COUNTS + at, count);
}

// A new cell, number n.
pub fn new_cell(a: &mut [u32], n: usize, tag: u32, arg: u32, first: u32, count: u32)
    requires { Making a.old n tag arg first count }
    ensures { Made a.old a.new n tag arg first count }
{
    put_cell(a, n, tag, arg, first, count);
}

// A new unknown, cell number n.
pub fn new_unknown(a: &mut [u32], n: usize)
    requires { Making a.old n 0 0 first_run 0 }
    ensures { Made a.old a.new n 0 0 first_run 0 }
{
    new_cell(a, n, UNKNOWN, 0, FIRST_RUN, 0);
}

// The settled type at p enters as cell n, which refers to its words.
pub fn new_settled(a: &mut [u32], d: &[u32], n: usize, p: usize)
    requires { Entering a.old d.now n p }
    ensures { Entered a.old a.new d.now n p }
{
    new_unknown(a, n);
    store(a, LINKS + n, (SETTLED + p) as u32);
}

// A word more in the runs, at top: the caller's ghost count of cells is n.
pub fn add_word(a: &mut [u32], n: usize, top: usize, x: u32)
    requires { Adding a.old n top }
    ensures { Added a.old a.new n top x }
{
    store(a, RECORDS + top, x);
}
