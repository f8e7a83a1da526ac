// The tower f (f (.. (f 1))) of applications of a generic f : ℙ (X × T), where T has 24 copies of X in a size of 32: nine levels, as deep as a document may be.
// The tree of its type has more than 24⁹ parts, over 10¹²; the store has 100 cells. stdout holds the outcomes: one level, nine, and nine tied to their own number.
#![tactic(auto)]

ghost use Rattle.std.specs.Prelude.{◌<◌};
ghost use Rattle.tower.specs.Ready.{Rowing, Rowed, TowerRoom, Built, Forming, Applying, Applied, Towering, Towered, Asked};

use codes::type_tags;
use std::io;
use types_cells::area::{AREA, FIRST_RUN};
use types_solver::sizes::OVER;

const LEVELS: usize = 9;

// The type of f: its cells, and their parts.
const GENERIC: usize = 8;

const GENERIC_PARTS: usize = 31;

// The type that f must have for an argument: its cells, the first for the type of the application, and their parts.
const APPLIED: usize = 3;

const APPLIED_PARTS: usize = 3;

// The cells of a level, and their parts.
const CELLS: usize = GENERIC + APPLIED;

const PARTS: usize = GENERIC_PARTS + APPLIED_PARTS;

// The last cell of either type in a level.
const LAST_GENERIC: usize = GENERIC - 1;

const LAST_APPLIED: usize = CELLS - 1;

const UNKNOWN: u32 = types_cells::area::UNKNOWN as u32;

const INTEGERS: u32 = type_tags::INTEGERS as u32;

const POWER: u32 = type_tags::POWER as u32;

const PRODUCT: u32 = type_tags::PRODUCT as u32;

// Why the solver has no size to tell.
#[derive(Clone, Copy)]
enum Unsolved {
    Clash,
    Cycle,
}

// The m cells from `first` on, each `step` after the one before, as parts of cell n.
fn row(a: &mut [u32], n: usize, top: usize, first: usize, step: usize, m: usize)
    requires { Rowing a.old n top first step m }
    ensures { Rowed a.old a.new n top m }
{
    let mut x = first;
    for j in 0..m {
        types_cells::growth::add_word(a, n, top + j, x as u32);
        x += step;
    }
}

// Cell n, with the parts of such a row.
fn former(
    a: &mut [u32],
    n: usize,
    top: usize,
    tag: u32,
    arg: u32,
    first: usize,
    step: usize,
    m: usize,
)
    requires { Forming a.old n top tag arg first step m }
    ensures { Built a.old a.new n top 1 m }
{
    row(a, n, top, first, step, m);
    types_cells::growth::new_cell(a, n, tag, arg, top as u32, m as u32);
}

// The type ℙ (X × (X⁶ × X⁶ × X⁶ × X⁶)) of f: X is cell n.
fn generic(a: &mut [u32], n: usize, top: usize)
    requires { TowerRoom a.old n top 8 31 }
    ensures { Built a.old a.new n top 8 31 }
{
    former(a, n, top, UNKNOWN, 0, 0, 0, 0);
    former(a, n + 1, top, PRODUCT, 6, n, 0, 6);
    former(a, n + 2, top + 6, PRODUCT, 6, n, 0, 6);
    former(a, n + 3, top + 12, PRODUCT, 6, n, 0, 6);
    former(a, n + 4, top + 18, PRODUCT, 6, n, 0, 6);
    former(a, n + 5, top + 24, PRODUCT, 4, n + 1, 1, 4);
    former(a, n + 6, top + 28, PRODUCT, 2, n, 5, 2);
    former(a, n + 7, top + 30, POWER, 0, n + 6, 0, 1);
}

// The type ℙ (x × R) that f must have for an argument of the type of cell x: R, the type of the application, is cell n.
fn applied(a: &mut [u32], n: usize, top: usize, x: usize)
    requires { (TowerRoom a.old n top 3 3) × (x < n) }
    ensures { Built a.old a.new n top 3 3 }
{
    former(a, n, top, UNKNOWN, 0, 0, 0, 0);
    former(a, n + 1, top, PRODUCT, 2, x, n - x, 2);
    former(a, n + 2, top + 2, POWER, 0, n + 1, 0, 1);
}

// One level: its type is cell n + 8.
fn level(a: &mut [u32], d: &[u32], n: usize, top: usize, x: usize) -> bool
    requires { Applying a.old d.now n top x }
    ensures { Applied a.old a.new d.now n top result }
{
    generic(a, n, top);
    applied(a, n + GENERIC, top + GENERIC_PARTS, x);
    types_unifier::unification::merge(a, d, n + LAST_GENERIC, n + LAST_APPLIED)
}

// What the solver says of cell x of the n cells: the size of its type.
fn ask(a: &mut [u32], d: &[u32], n: usize, x: usize) -> Result<usize, Unsolved>
    requires { Asked a.old d.now n x }
{
    if types_solver::acyclicity::finite(a, n) {
        return Ok(types_solver::sizes::cell_size(a, d, x));
    }
    Err(Unsolved::Cycle)
}

// The levels over the type of cell 0, ℤ or an unknown. The last one's type is the third cell from the end.
fn build(a: &mut [u32], d: &[u32], start: u32, levels: usize) -> bool
    requires { Towering a.old d.now start levels }
    ensures { Towered a.new d.now levels result }
{
    former(a, 0, FIRST_RUN, start, 0, 0, 0, 0);
    let mut x = 0;
    for i in 0..levels {
        let n = 1 + CELLS * i;
        let top = FIRST_RUN + PARTS * i;
        if level(a, d, n, top, x) {
            x = n + GENERIC;
        } else {
            return false;
        }
    }
    true
}

// The tower; with a tie, its type is to be that of its own number.
fn tower(a: &mut [u32], d: &[u32], start: u32, levels: usize, tie: bool) -> Result<usize, Unsolved>
    requires { Towering a.old d.now start levels }
{
    if build(a, d, start, levels) {
        let n = 1 + CELLS * levels;
        let x = n - APPLIED;
        if tie {
            if types_unifier::unification::merge(a, d, 0, x) {
                return ask(a, d, n, x);
            }
            return Err(Unsolved::Clash);
        }
        return ask(a, d, n, x);
    }
    Err(Unsolved::Clash)
}

fn show(rt: &impl Print, outcome: Result<usize, Unsolved>) -> io::Result<()> {
    match outcome {
        Err(Unsolved::Clash) => println!(rt; "clash"),
        Err(Unsolved::Cycle) => println!(rt; "cycle"),
        Ok(size) => {
            if size < OVER {
                println!(rt; "solved, size {size}")
            } else {
                println!(rt; "solved, size over 32")
            }
        }
    }
}

fn main(rt: HostRuntime) -> io::Result<()> {
    let mut a = [0u32; AREA];
    let d = [0u32; 1];
    show(&rt, tower(&mut a, &d, INTEGERS, 1, false))?;
    show(&rt, tower(&mut a, &d, INTEGERS, LEVELS, false))?;
    show(&rt, tower(&mut a, &d, INTEGERS, LEVELS, true))?;
    show(&rt, tower(&mut a, &d, UNKNOWN, LEVELS, true))
}
