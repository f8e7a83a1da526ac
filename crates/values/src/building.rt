// A value while it is built: its words so far at the beginning of a lent array of 64, zeros after them. Past 64 words the place of the next is over 64.
ghost use Rattle.std.specs.Prelude.{◌≡◌, ℕ, List, ◌++◌};
ghost use Rattle.values.specs.Held.{keep, Building};

use crate::held::{Held, OVER, over};
use codes::limits;
use words::copy;

// The words w after those so far, and the place of the next.
pub fn put(u: &mut [u32], at: usize, w: &[u32]) -> usize
    ensures { (ws : List ℕ) → Building u.old at ws → Building u.new result (ws ++ w.now) }
{
    let n = u.len();
    if n < at {
        return at;
    }
    if n - at < w.len() {
        return OVER;
    }
    copy(w, u, at);
    at + w.len()
}

// The value, once it is complete.
pub fn built(words: [u32; limits::VALUE], at: usize) -> Held
    ensures { (ws : List ℕ) → Building words at ws → result ≡ keep ws }
{
    if limits::VALUE < at {
        return over();
    }
    Held {
        words: words,
        len: at,
    }
}
