// Sizes of types, at most 33.
ghost use Rattle.std.specs.Prelude.{◌≡◌};
ghost use Rattle.types_cells.specs.Settled.{Reading};
ghost use Rattle.types_solver.specs.Answers.{LookingRoot};
ghost use Rattle.types_solver.specs.Sizes.{cap, TypeSize, UnknownSize, Measuring, Measured};

use codes::limits;
use types_cells::area::{COUNT, LINKS, MARKS, SETTLED, TAG, UNKNOWN, field, part};
use types_cells::links::find;
use types_cells::type_words::{lead_words, name_words, parts_of, skip, type_word};
use words::word;

// Sizes stop here, past the limit.
pub const OVER: usize = limits::SIZE + 1;

// The size x, or OVER.
pub fn capped(x: usize) -> usize
    ensures { result ≡ cap x }
{
    if x < OVER {
        return x;
    }
    OVER
}

// The size of the type at p, at most 33.
pub fn type_size(a: &[u32], d: &[u32], p: usize) -> usize
    requires { Reading a.now d.now p }
    ensures { TypeSize a.now d.now p result }
{
    let t = type_word(a, d, p);
    let w = name_words(t);
    let n = parts_of(a, d, t, p);
    let mut at = p + lead_words(t);
    let mut sum = 1;
    for j in 0..n {
        let q = at + w;
        sum = capped(sum + type_size(a, d, q));
        at = skip(a, d, q);
    }
    sum
}

// The size of the unknown r, a representative, at most 33.
fn unknown_size(a: &[u32], d: &[u32], r: usize) -> usize
    requires { LookingRoot a.now d.now r }
    ensures { UnknownSize a.now d.now r result }
{
    let q = word(a, LINKS + r);
    if q < SETTLED {
        return 1;
    }
    type_size(a, d, q - SETTLED)
}

// The size of the type of cell i, at most 33. The marks are those of `finite`.
pub fn cell_size(a: &[u32], d: &[u32], i: usize) -> usize
    requires { Measuring a.now d.now i }
    ensures { Measured a.now d.now i result }
{
    if limits::SIZE < word(a, MARKS + i) {
        return OVER;
    }
    let r = find(a, i);
    if field(a, r, TAG) == UNKNOWN {
        return unknown_size(a, d, r);
    }
    let k = field(a, r, COUNT);
    let mut sum = 1;
    for j in 0..k {
        sum = capped(sum + cell_size(a, d, part(a, r, j)));
    }
    sum
}
