// Integers as values.
ghost use Rattle.std.specs.Prelude.{◌≡◌};
ghost use Rattle.values.specs.Held.{keep};
ghost use Rattle.values.specs.Numbers.{number_of};
ghost use Rattle.values.specs.Value.{int, encode};

use super::held::{Held, hold};
use codes::value_tags;
use values_integers::integer::{signed, word_of};
use words::word;

// The tag as a word.
const INTEGER: u32 = value_tags::INTEGER as u32;

// The integer that a value is. `number_finding` of specs/Numbers.antt has the number where it is none.
pub fn number_of(w: &[u32]) -> Option<i32>
    ensures { result ≡ number_of w.now }
{
    if word(w, 0) == value_tags::INTEGER {
        return Some(signed(word(w, 1) as u32));
    }
    None
}

pub fn integer_value(z: i32) -> Held
    ensures { result ≡ keep (encode (int z)) }
{
    let w = [INTEGER, word_of(z)];
    hold(&w)
}
