// Words of an area moved inside it, and words made zero.
ghost use Rattle.std.specs.Prelude.{◌≡◌, ◌+◌, ◌-◌, ◌≤◌, length, take, drop, replicate};
ghost use Rattle.std.proofs.lemmas.List.Edits.{sets};

use words::{store, word};

// The m words from `from` on go up to `to`, the last one first.
fn shift_up(d: &mut [u32], from: usize, m: usize, to: usize)
    requires { (from ≤ to) × (to + m ≤ length d.old) }
    ensures { d.new ≡ sets d.old to (take m (drop from d.old)) }
{
    for i in (0..m).rev() {
        let moved = word(d, from + i);
        store(d, to + i, moved as u32);
    }
}

// The same down, the first one first.
fn shift_down(d: &mut [u32], from: usize, m: usize, to: usize)
    requires { (to ≤ from) × (from + m ≤ length d.old) }
    ensures { d.new ≡ sets d.old to (take m (drop from d.old)) }
{
    for i in 0..m {
        let moved = word(d, from + i);
        store(d, to + i, moved as u32);
    }
}

// The m words from `from` on stand from `to` on too; the two may overlap.
pub fn shift(d: &mut [u32], from: usize, m: usize, to: usize)
    requires { (from + m ≤ length d.old) × (to + m ≤ length d.old) }
    ensures { d.new ≡ sets d.old to (take m (drop from d.old)) }
{
    if from < to {
        shift_up(d, from, m, to);
        return;
    }
    shift_down(d, from, m, to);
}

// The words from `at` to `end` are zero.
pub fn erase(d: &mut [u32], at: usize, end: usize)
    ensures { d.new ≡ sets d.old at (replicate (end - at) 0) }
{
    for i in at..end {
        store(d, i, 0);
    }
}
