// The order of values, by signed word sequence, and their equality.
ghost use Rattle.std.specs.Prelude.{◌≡◌};
ghost use Rattle.values.specs.Order.{compare_word, compare, same};

use std::cmp::Ordering;
use values_integers::integer::signed;

fn compare_word(x: u32, y: u32) -> Ordering
    ensures { result ≡ compare_word x y }
{
    signed(x).cmp(&signed(y))
}

// Compares word by word, each read signed; a beginning comes before the whole.
pub fn compare(a: &[u32], b: &[u32]) -> Ordering
    ensures { result ≡ compare a.now b.now }
{
    for i in 0..a.len().min(b.len()) {
        let o = compare_word(a[i], b[i]);
        if o.is_ne() {
            return o;
        }
    }
    a.len().cmp(&b.len())
}

// Equality of values is equality of their words.
pub fn same(a: &[u32], b: &[u32]) -> bool
    ensures { result ≡ same a.now b.now }
{
    compare(a, b).is_eq()
}
