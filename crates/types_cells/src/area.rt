// The words of the area: specs/Store.antt has the layout, specs/Layout.antt how it follows from the capacity.
ghost use Rattle.std.specs.Prelude.{◌≡◌, ◌+◌, ◌<◌, ◌^◌, get_or};
ghost use Rattle.types_cells.specs.Store.{frozen, field_at, first_at};

use words::word;

// The capacity: cells, pending pairs, words of runs.
pub const CELLS: usize = 1024;

pub const PENDING: usize = 2048;

pub const RUN_WORDS: usize = 2048;

// The words of the pool, the caller's part. Among the places of type words they come first, and the dictionary's words follow.
pub const POOL: usize = 39936;

pub const DICTIONARY: usize = POOL;

// The store follows: link words, marks, pending pairs, cells, runs.
pub const LINKS: usize = POOL;

pub const MARKS: usize = LINKS + CELLS;

pub const PAIRS: usize = MARKS + CELLS;

pub const SECONDS: usize = PAIRS + 1;

pub const RECORDS: usize = PAIRS + 2 * PENDING;

// A link word below this is 0, or the number of a cell plus 1. From here on the cell is settled, and the rest is the place of its type words.
pub const SETTLED: usize = CELLS + 1;

// The words of a cell: its tag, its argument, the place of its first part, the number of parts.
pub const TAG: usize = 0;

pub const ARGUMENT: usize = 1;

pub const FIRST: usize = 2;

pub const COUNT: usize = 3;

pub const CELL_WORDS: usize = 4;

pub const ARGUMENTS: usize = RECORDS + ARGUMENT;

pub const FIRSTS: usize = RECORDS + FIRST;

pub const COUNTS: usize = RECORDS + COUNT;

// The tag of an unknown. Other tags are those of type words.
pub const UNKNOWN: usize = 0;

// Places of runs count from RECORDS: that of the first run, and its word in the area.
pub const FIRST_RUN: usize = CELL_WORDS * CELLS;

pub const RUNS: usize = RECORDS + FIRST_RUN;

// The words of the whole area.
pub const AREA: usize = RUNS + RUN_WORDS;

// Word k of the frozen part.
pub fn held(a: &[u32], k: usize) -> usize
    requires { k < 2 ^ 40 }
    ensures { (result ≡ get_or (frozen a.now) k 0) × (result < 2 ^ 32) }
{
    word(a, RECORDS + k)
}

// Word j of cell i.
pub fn field(a: &[u32], i: usize, j: usize) -> usize
    requires { (i < 2 ^ 32) × (j < 4) }
    ensures { (result ≡ field_at (frozen a.now) i j) × (result < 2 ^ 32) }
{
    held(a, CELL_WORDS * i + j)
}

// Part j of cell i.
pub fn part(a: &[u32], i: usize, j: usize) -> usize
    requires { (i < 2 ^ 32) × (j < 2 ^ 32) }
    ensures { (result ≡ get_or (frozen a.now) (first_at (frozen a.now) i + j) 0) × (result < 2 ^ 32) }
{
    held(a, field(a, i, FIRST) + j)
}
