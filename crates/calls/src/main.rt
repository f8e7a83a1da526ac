// Each call from a Rattle program, on a few documents: stdout holds the findings. The table of vectors is tests/compare/vectors.
#![tactic(auto)]

use codes::limits;
use evaluator_rules::Ending;
use reader_rules::Refusal;
use std::io;

// Words of the areas.
const DICTIONARY: usize = limits::DICTIONARY_AREA_WORDS;

const CHECK_WORK: usize = limits::CHECK_WORK_WORDS;

const RUN_WORK: usize = limits::RUN_WORK_WORDS;

// Words of the output area: those of INTEGER.
const WORDS: usize = 25;

// Bytes of the buffer: enough for each of these findings.
const OUTPUT: usize = 1024;

// [A]
const GIVEN: [u32; 9] = [2, 5, 2, 7, 2, 2, 4, 1, 1];
// kind 7
const NO_KIND: [u32; 8] = [2, 5, 1, 6, 2, 7, 1, 1];
// x : ℤ
const INTEGER: [u32; 25] = [
    6, 13, 1, 14, 3, 17, 1, 18, 3, 21, 2, 23, 2, 32, 11, 1, 4, 20, 10, 3, 2, 3, 4, 1, 5,
];
// 1 = {1}
const UNEQUAL: [u32; 26] = [
    6, 13, 2, 15, 2, 17, 2, 19, 3, 22, 2, 24, 2, 31, 1, 31, 1, 33, 2, 21, 1, 3, 6, 4, 1, 5,
];
// 2 ≤ 1
const DESCENDING: [u32; 22] = [
    5, 11, 2, 13, 2, 15, 3, 18, 2, 20, 2, 31, 2, 31, 1, 23, 1, 2, 6, 3, 1, 4,
];

// States: no names; a given of 3 elements, and of 21; x = 7, and x = {}.
const NO_NAMES: [u32; 1] = [0];

const THREE: [u32; 4] = [1, 3, 1, 3];

const TOO_MANY: [u32; 4] = [1, 3, 1, 21];

const SEVEN: [u32; 5] = [1, 3, 2, 1, 7];

const EMPTY_SET: [u32; 5] = [1, 3, 2, 3, 0];

fn show_reading(rt: &impl Print, finding: Result<(), Refusal>) -> io::Result<()> {
    match finding {
        Ok(()) => println!(rt; "readable"),
        Err(refusal) => println!(rt; "{refusal}"),
    }
}

// Printed by the print call.
fn show_finding(rt: &impl Print, finding: Result<(), Refusal>, dict: &[u32]) -> io::Result<()> {
    let mut out = [0u8; OUTPUT];
    let n = printer::print_finding(finding, dict, &mut out);
    rt.write_all(&out[..n])
}

fn show_run(rt: &impl Print, finding: Result<Ending, Refusal>) -> io::Result<()> {
    match finding {
        Ok(ending) => println!(rt; "{ending}"),
        Err(refusal) => println!(rt; "{refusal}"),
    }
}

fn check(rt: &impl Print, doc: &[u32]) -> io::Result<()> {
    let mut dict = [0u32; DICTIONARY];
    let mut work = [0u32; CHECK_WORK];
    let finding = checker::check(doc, &mut dict, &mut work);
    show_finding(rt, finding, &dict)
}

fn fit(rt: &impl Print, doc: &[u32], state: &[u32]) -> io::Result<()> {
    let mut dict = [0u32; DICTIONARY];
    let mut work = [0u32; CHECK_WORK];
    let finding = fitter::fit(doc, state, &mut dict, &mut work);
    show_finding(rt, finding, &dict)
}

fn run(rt: &impl Print, doc: &[u32], state: &[u32]) -> io::Result<()> {
    let mut work = [0u32; RUN_WORK];
    show_run(rt, evaluator::run(doc, state, &mut work))
}

fn show_words(rt: &impl Print, area: &[u32]) -> io::Result<()> {
    print!(rt; "words")?;
    for w in area {
        print!(rt; " {w}")?;
    }
    println!(rt)
}

// Written again, in an area of WORDS words, whether or not there is room.
fn rewrite(rt: &impl Print, doc: &[u32]) -> io::Result<()> {
    let mut output = [1u32; WORDS];
    show_reading(rt, canonical::canonical(doc, &mut output))?;
    show_words(rt, &output)
}

fn main(rt: HostRuntime) -> io::Result<()> {
    show_reading(&rt, reader::read(&GIVEN))?;
    show_reading(&rt, reader::read(&NO_KIND))?;
    show_reading(&rt, states::check_state(&GIVEN, &THREE))?;
    show_reading(&rt, states::check_state(&GIVEN, &TOO_MANY))?;
    check(&rt, &GIVEN)?;
    check(&rt, &UNEQUAL)?;
    fit(&rt, &INTEGER, &SEVEN)?;
    fit(&rt, &INTEGER, &EMPTY_SET)?;
    run(&rt, &INTEGER, &SEVEN)?;
    run(&rt, &DESCENDING, &NO_NAMES)?;
    run(&rt, &DESCENDING, &THREE)?;
    rewrite(&rt, &INTEGER)?;
    rewrite(&rt, &UNEQUAL)
}
