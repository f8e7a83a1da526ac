// The program of document 01, "The printed finding": a document from standard input, its finding to standard output.
// No contract can say which bytes the system's read and write move; `report` says what is written for the bytes that were read.
#![tactic(auto)]

ghost use Rattle.std.specs.Prelude.{◌≡◌, [], length};
ghost use Rattle.reader_rules.specs.Refusals.{Refused};
ghost use Rattle.printer_rules.specs.Print.{printed_of, print_of};
ghost use Rattle.zcheck.specs.Report.{report_of, Prints, Areas};

use codes::{WORD_BYTES, findings, limits};
use reader_rules::Refusal;
use std::io;

// Words of the areas.
const DOCUMENT: usize = limits::DOCUMENT_WORDS;

const DICTIONARY: usize = limits::DICTIONARY_AREA_WORDS;

// One byte more than a document has, so that a longer input shows.
const INPUT: usize = WORD_BYTES * DOCUMENT + 1;

// Bytes that always suffice for the printed finding: `enough` in printer_rules/specs/Bounds.antt.
const OUTPUT: usize = 11 * DICTIONARY + 34;

// The printed finding of a document's words: its length.
fn print_check(doc: &[u32], dict: &mut [u32], work: &mut [u32], out: &mut [u8]) -> usize
    requires { Areas (length dict.old) (length work.old) (length out.old) }
    ensures { Prints (printed_of doc.now) result out.new }
{
    let finding = checker::check(doc, dict, work);
    printer::print_finding(finding, dict, out)
}

// 11 at 0, printed: its length.
fn print_broken(dict: &[u32], out: &mut [u8]) -> usize
    requires { 180258 ≡ length out.old }
    ensures { Prints (print_of (Refused 11 0) []) result out.new }
{
    let finding = Err(Refusal {
        number: findings::BROKEN_LAYOUT,
        place: 0,
    });
    printer::print_finding(finding, dict, out)
}

// What the program writes for its input, at the beginning of the buffer: its length.
// Document 01, forms: "with areas of 16,384 words".
fn report(input: &[u8], out: &mut [u8; OUTPUT]) -> usize
    ensures { Prints (report_of input.now) result out.new }
{
    let mut doc: [u32; 16384] = [0; 16384];
    let mut dict: [u32; 16384] = [0; 16384];
    let mut work: [u32; 16384] = [0; 16384];
    if input::take_words(input, &mut doc) {
        let n = input.len() / WORD_BYTES;
        return print_check(&doc[..n], &mut dict, &mut work, out);
    }
    print_broken(&dict, out)
}

fn main(rt: HostRuntime) -> io::Result<()> {
    let mut input = [0u8; INPUT];
    let mut out = [0u8; OUTPUT];
    let n = input::read_bytes(&mut rt.stdin(), &mut input)?;
    let m = report(&input[..n], &mut out);
    rt.write_all(&out[..m])
}
