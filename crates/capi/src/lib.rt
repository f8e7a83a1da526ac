// The calls for C and Rust. Each gives its finding as one number.
#![tactic(auto)]

ghost use Rattle.std.specs.Prelude.{◌≡◌, length};
ghost use Rattle.reader_rules.specs.Reading.{read_of};
ghost use Rattle.states_rules.specs.States.{state_check_of};
ghost use Rattle.checker_rules.specs.Check.{check_of};
ghost use Rattle.fitter_rules.specs.Fit.{fit_of};
ghost use Rattle.printer_rules.specs.Print.{print_of};
ghost use Rattle.printer_rules.specs.Buffer.{Printed};
ghost use Rattle.capi_codes.specs.Code.{code_of, code_finding};
ghost use Rattle.capi.specs.Areas.{Decided, RunDecided, CanonicalDecided};

use capi_codes::{code_of, finding_of, run_code};

// Reading: 0 where the document is readable, else one of 11 to 17 with its place.
pub fn z_read(doc: &[u32]) -> u64
    ensures { result ≡ code_of (read_of doc.now) }
{
    code_of(reader::read(doc))
}

// A document with a state: reading's finding first, then 41 with the entry, 0 for its pairs; 0 where the state is well formed.
pub fn z_state(doc: &[u32], state: &[u32]) -> u64
    ensures { result ≡ code_of (state_check_of doc.now state.now) }
{
    code_of(states::check_state(doc, state))
}

// A document written again in the one coding: reading's finding first, then 27 at 0 where the output area is too short. The output area then holds the
// result and zeros after it, after a refusal zeros.
pub fn z_canonical(doc: &[u32], output: &mut [u32]) -> u64
    ensures { CanonicalDecided doc.now (length output.old) result output.new }
{
    code_of(canonical::canonical(doc, output))
}

// The check of a document: reading's finding first, then 21, then 22 at 0 where the dictionary area has no words; then, paragraph by paragraph, 31 to 39
// with the node, last 22 with the paragraph. After acceptance the dictionary area holds the dictionary and zeros after it, after a refusal zeros; the
// work area is zeros afterwards.
pub fn z_check(doc: &[u32], dict: &mut [u32], work: &mut [u32]) -> u64
    ensures { Decided (check_of doc.now (length dict.old) (length work.old)) (length dict.old) (length work.old) result dict.new work.new }
{
    code_of(checker::check(doc, dict, work))
}

// The check of a document, then a state against its dictionary: the check's finding first, then 41 and 42 with the entry. The areas as after a check.
pub fn z_fit(doc: &[u32], state: &[u32], dict: &mut [u32], work: &mut [u32]) -> u64
    ensures { Decided (fit_of doc.now state.now (length dict.old) (length work.old)) (length dict.old) (length work.old) result dict.new work.new }
{
    code_of(fitter::fit(doc, state, dict, work))
}

// A run of a document over a state: reading's finding first, then 21, 41, and those of the paragraphs. The work area is zeros afterwards.
pub fn z_run(doc: &[u32], state: &[u32], work: &mut [u32]) -> u64
    ensures { RunDecided doc.now state.now work.old work.new result }
{
    run_code(evaluator::run(doc, state, work))
}

// The printed finding of a check and its dictionary as a string of C: its length; 0 where it and the zero that ends it have no room, and then the
// buffer is all zero.
pub fn z_print(finding: u64, dict: &[u32], out: &mut [u8]) -> usize
    ensures { Printed (print_of (code_finding finding) dict.now) (length out.old) result out.new }
{
    printer::print_finding(finding_of(finding), dict, out)
}
