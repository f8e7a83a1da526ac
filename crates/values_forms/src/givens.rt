// Given sets: the size of each, as the caller's table says, and the set of its elements.
ghost use Rattle.std.specs.Prelude.{◌≡◌, ◌≤◌};
ghost use Rattle.values.specs.Value.{encode};
ghost use Rattle.values.specs.Held.{keep};
ghost use Rattle.values.specs.Givens.{elements, small_size, size_of};

use codes::{limits, value_tags};
use values::held::{Held, append, hold, over};
use words::word;

// The tags as words.
const SET: u32 = value_tags::SET as u32;

const ELEMENT: u32 = value_tags::ELEMENT as u32;

// The set of the n elements of g. Twenty elements have 62 words.
pub fn given_set(g: u32, n: usize) -> Held
    ensures { result ≡ keep (encode (elements g n)) }
{
    if limits::ELEMENTS < n {
        return over();
    }
    let head = [SET, n as u32];
    let mut v = hold(&head);
    for k in 0..n {
        let e = [ELEMENT, g, k as u32];
        v = append(v, &e);
    }
    v
}

fn small_size(n: usize) -> usize
    ensures { (result ≡ small_size n) × (result ≤ 20) }
{
    if n <= limits::ELEMENTS {
        return n;
    }
    0
}

// The size of a given, by the table of identifiers and sizes that the caller lends.
pub fn size_of(givens: &[u32], g: usize) -> usize
    ensures { result ≡ size_of givens.now g }
{
    for i in 0..givens.len() / 2 {
        if word(givens, 2 * i) == g {
            return small_size(word(givens, 2 * i + 1));
        }
    }
    0
}
