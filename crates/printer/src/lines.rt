// The lines of a finding put into a buffer.
ghost use Rattle.std.specs.Prelude.{◌≡◌, ◌<◌, ◌^◌};
ghost use Rattle.printer_rules.specs.Lines.{entry_line, dictionary_size, entry_lines, accepted_lines, refused_line};
ghost use Rattle.printer.specs.Buffer.{Put};

use crate::buffer::{put_byte, put_text, within};
use crate::numbers::{put_each_spaced, put_numbers, put_spaced};
use layout::part;
use words::{span, word};

// The words of an entry before its type: class, identifier, parameter count.
const HEAD: usize = 3;

// An entry's line: class, identifier, parameter count, a colon, type words.
fn put_entry(out: &mut [u8], at: usize, entry: &[u32]) -> usize
    ensures { Put (entry_line entry.now) out.old at out.new result }
{
    let front = put_numbers(out, at, span(entry, 0, HEAD));
    let colon = put_text(out, front, b" :");
    let types = put_each_spaced(out, colon, span(entry, HEAD, entry.len()));
    put_byte(out, types, b'\n')
}

// A line per entry, as long as the buffer has room.
fn put_entries(out: &mut [u8], at: usize, dict: &[u32]) -> usize
    ensures { Put (entry_lines dict.now) out.old at out.new result }
{
    let n = word(dict, 0);
    let mut end = within(out, at);
    for k in 1..n + 1 {
        if end == out.len() {
            return end;
        }
        end = put_entry(out, end, part(dict, k));
    }
    end
}

// Where the last entry ends.
fn dictionary_size(dict: &[u32]) -> usize
    ensures { result ≡ dictionary_size dict.now }
{
    let n = word(dict, 0);
    if n == 0 {
        return 1;
    }
    word(dict, 2 * n - 1) + word(dict, 2 * n)
}

// accepted, dictionary words, entries; then the entries. Document 01, forms: "the first line is the word accepted".
pub fn put_accepted(out: &mut [u8], at: usize, dict: &[u32]) -> usize
    ensures { Put (accepted_lines dict.now) out.old at out.new result }
{
    let accepted = put_text(out, at, b"accepted");
    let size = put_spaced(out, accepted, dictionary_size(dict));
    let count = put_spaced(out, size, word(dict, 0));
    let line = put_byte(out, count, b'\n');
    put_entries(out, line, dict)
}

// refused, the number, at, the place.
pub fn put_refused(out: &mut [u8], at: usize, number: u32, place: u32) -> usize
    ensures { Put (refused_line number place) out.old at out.new result }
{
    let refused = put_text(out, at, b"refused");
    let numbered = put_spaced(out, refused, number as usize);
    let placed = put_text(out, numbered, b" at");
    let line = put_spaced(out, placed, place as usize);
    put_byte(out, line, b'\n')
}
