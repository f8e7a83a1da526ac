// Links between cells, and representatives.
ghost use Rattle.std.specs.Prelude.{◌≡◌, suc, ◌+◌, ◌<◌, ◌^◌, set};
ghost use Rattle.types_cells.specs.Layout.{max_cells, links_at, settled_from};
ghost use Rattle.types_cells.specs.Store.{link_at};
ghost use Rattle.types_cells.specs.Flat.{Sound, Straight, Flattened};
ghost use Rattle.types_cells.specs.Calls.{Known, Root};

use crate::area::{LINKS, SETTLED};
use words::{store, word};

// The link of cell k: 0 where it is a representative.
pub fn link(a: &[u32], k: usize) -> usize
    requires { k < 2 ^ 32 }
    ensures { (result ≡ link_at a.now k) × (result < settled_from) }
{
    let v = word(a, LINKS + k);
    if v < SETTLED {
        return v;
    }
    0
}

// Links cell x to y.
pub fn set_link(a: &mut [u32], x: usize, y: usize)
    requires { (x < max_cells) × (y < max_cells) }
    ensures { a.new ≡ set a.old (links_at + x) (suc y) }
{
    store(a, LINKS + x, (y + 1) as u32);
}

// The representative of cell i: at most two reads where links are direct, and one more for each link of a merge since.
pub fn find(a: &[u32], i: usize) -> usize
    requires { Known a.now i }
    ensures { Root a.now i result }
{
    let mut k = i;
    let mut l = link(a, k);
    // A while: the next cell is what is read.
    while l != 0 {
        k = l - 1;
        l = link(a, k);
    }
    k
}

// The link of cell i made direct. The caller's ghost count of cells is n.
fn shorten(a: &mut [u32], i: usize, n: usize)
    requires { (Sound a.old n) × (i < n) }
    ensures { Straight a.old a.new i n }
{
    if link(a, i) != 0 {
        let r = find(a, i);
        set_link(a, i, r);
    }
}

// All links made direct.
pub fn flatten(a: &mut [u32], n: usize)
    requires { Sound a.old n }
    ensures { Flattened a.old a.new n }
{
    for i in 0..n {
        shorten(a, i, n);
    }
}
