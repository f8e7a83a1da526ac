// The printed finding: lines of bytes for a check's finding and its dictionary. The definitions are in the crate `printer_rules`.
#![tactic(auto)]

mod buffer;
mod lines;
mod numbers;

ghost use Rattle.std.specs.Prelude.{length};
ghost use Rattle.printer_rules.specs.Print.{print_of};
ghost use Rattle.printer_rules.specs.Buffer.{Printed};
ghost use Rattle.printer.specs.Buffer.{Put};

use buffer::clear;
use lines::{put_accepted, put_refused};
use reader_rules::Refusal;

// The lines of a finding, put into the buffer from `at` on.
fn put_finding(out: &mut [u8], at: usize, finding: Result<(), Refusal>, dict: &[u32]) -> usize
    ensures { Put (print_of finding dict.now) out.old at out.new result }
{
    match finding {
        Ok(()) => put_accepted(out, at, dict),
        Err(Refusal { number, place }) => put_refused(out, at, number, place),
    }
}

// The printed finding at the beginning of the buffer, zeros after it, so that it is a string of C: its length without them. Where the buffer
// has no room for the lines and one zero, 0, and the buffer is all zero.
pub fn print_finding(finding: Result<(), Refusal>, dict: &[u32], out: &mut [u8]) -> usize
    ensures { Printed (print_of finding dict.now) (length out.old) result out.new }
{
    clear(out);
    let end = put_finding(out, 0, finding, dict);
    if end < out.len() {
        return end;
    }
    clear(out);
    0
}
