// A value by value: at most 64 words and their number. A value of over 64 words, finding 55, has the length 65.
ghost use Rattle.std.specs.Prelude.{◌≡◌, ℕ, List, [], ◌++◌};
ghost use Rattle.values.specs.Held.{over, keep};

use codes::limits;
use words::copy;

// The length of a value that is not held.
pub const OVER: usize = limits::VALUE + 1;

#[derive(Clone, Copy)]
pub struct Held {
    pub words: [u32; limits::VALUE],
    pub len: usize,
}

pub fn over() -> Held
    ensures { result ≡ over }
{
    Held {
        words: [0u32; limits::VALUE],
        len: OVER,
    }
}

pub fn empty() -> Held
    ensures { result ≡ keep [] }
{
    Held {
        words: [0u32; limits::VALUE],
        len: 0,
    }
}

// More words after those that are held.
pub fn append(v: Held, w: &[u32]) -> Held
    ensures { (ws : List ℕ) → v ≡ keep ws → result ≡ keep (ws ++ w.now) }
{
    let len = v.len;
    if limits::VALUE < len {
        return over();
    }
    if limits::VALUE - len < w.len() {
        return over();
    }
    let mut words = v.words;
    copy(w, &mut words, len);
    Held {
        words: words,
        len: len + w.len(),
    }
}

pub fn hold(w: &[u32]) -> Held
    ensures { result ≡ keep w.now }
{
    append(empty(), w)
}
