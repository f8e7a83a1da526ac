// Numbers put into a buffer in decimal.
ghost use Rattle.std.specs.Prelude.{[], ◌∷◌};
ghost use Rattle.printer_rules.specs.Decimal.{decimal};
ghost use Rattle.printer_rules.specs.Lines.{spaced, numbers};
ghost use Rattle.printer.specs.Buffer.{Put};

use crate::buffer::{put_byte, within};

// The digits of n: those of its tenth, then the last.
// By hand: no clause says which bytes `write!` puts into a slice.
pub fn put_number(out: &mut [u8], at: usize, n: usize) -> usize
    ensures { Put (decimal n) out.old at out.new result }
{
    if n < 10 {
        return put_byte(out, at, b'0' + n as u8);
    }
    let end = put_number(out, at, n / 10);
    put_byte(out, end, b'0' + (n % 10) as u8)
}

// A space and a number.
pub fn put_spaced(out: &mut [u8], at: usize, n: usize) -> usize
    ensures { Put (spaced (n ∷ [])) out.old at out.new result }
{
    let end = put_byte(out, at, b' ');
    put_number(out, end, n)
}

// A space and a number, for each of the words.
pub fn put_each_spaced(out: &mut [u8], at: usize, words: &[u32]) -> usize
    ensures { Put (spaced words.now) out.old at out.new result }
{
    let mut end = within(out, at);
    for w in words {
        end = put_spaced(out, end, *w as usize);
    }
    end
}

// The words parted by spaces.
pub fn put_numbers(out: &mut [u8], at: usize, words: &[u32]) -> usize
    ensures { Put (numbers words.now) out.old at out.new result }
{
    match words.split_first() {
        None => within(out, at),
        Some((first, rest)) => {
            let end = put_number(out, at, *first as usize);
            put_each_spaced(out, end, rest)
        }
    }
}
