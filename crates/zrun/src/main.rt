// zrun DOCUMENT STATE: checks the document of a file, fits the state of another, and runs it. Prints `holds`, `fails at 12` or `refused 42 at 3`
// to standard output, or to standard error why a file cannot be read. A file whose bytes are no words, or more than 16,384, counts as one of none:
// a document of no words is 11 at 0, a state 41 at 0.
#![tactic(auto)]

ghost use Rattle.std.specs.Prelude.{◌≡◌, ◌≤◌, length, IfOk, IfSome};
ghost use Rattle.fitter_rules.specs.Fit.{fit_of};
ghost use Rattle.evaluator_rules.specs.Run.{run_of};
ghost use Rattle.zrun.specs.Judge.{judge_of};

use codes::{WORD_BYTES, limits};
use evaluator_rules::Ending;
use reader_rules::Refusal;
use std::env::FillError;
use std::fs::File;
use std::io::{Read, Write};
use std::rt::{Env, Files};
use std::{io, str};

// Words of the areas: of the document and the state, of the dictionary; and the work area, first the fit's, which needs no more than the run's.
const DOCUMENT: usize = limits::DOCUMENT_WORDS;

const DICTIONARY: usize = limits::DICTIONARY_AREA_WORDS;

const WORK: usize = limits::RUN_WORK_WORDS;

// One byte more than a document has, so that a longer file shows.
const INPUT: usize = WORD_BYTES * DOCUMENT + 1;

// Bytes of the buffer for a file's name: those of the longest that the system opens.
const PATH: usize = 4096;

// Bytes of the buffer for the reason why a file cannot be read.
const REASON: usize = 512;

// The words of an open file, at the beginning of an area: how many.
fn take_file(file: &mut impl Read, area: &mut [u32]) -> io::Result<usize>
    ensures { IfOk result (λ n. n ≤ length area.old) }
{
    let mut bytes = [0u8; INPUT];
    let n = input::read_bytes(file, &mut bytes)?;
    if input::take_words(&bytes[..n], area) {
        return Ok(n / WORD_BYTES);
    }
    Ok(0)
}

// The same of the file of that name, which is opened.
fn open_file(files: &impl Files, path: &str, area: &mut [u32]) -> io::Result<usize>
    ensures { IfOk result (λ n. n ≤ length area.old) }
{
    let mut file = File::open(files, path)?;
    take_file(&mut file, area)
}

// The words of the file that argument i names, at the beginning of an area: how many. None where it cannot be read, and standard error says why.
// An Err is of standard error.
fn load<R: Env + Files + Eprint>(rt: &R, i: usize, area: &mut [u32]) -> io::Result<Option<usize>>
    ensures { IfOk result (λ found. IfSome found (λ n. n ≤ length area.old)) }
{
    let mut name = [0u8; PATH];
    match rt.arg(i, &mut name) {
        Ok(length) => load_named(rt, &name[..length], area),
        Err(FillError::NotPresent) => {
            eprintln!(rt; "zrun DOCUMENT STATE: Invalid argument")?;
            Ok(None)
        }
        Err(FillError::TooLong) => {
            eprintln!(rt; "zrun DOCUMENT STATE: File name too long")?;
            Ok(None)
        }
    }
}

// The reason alone: std's text of an error of the system goes on with its number.
fn reason(text: &str) -> &str {
    match text.split_once(" (os error ") {
        Some((reason, _)) => reason,
        None => text,
    }
}

// Names a file that cannot be read on standard error, with the reason.
fn name_reason(rt: &impl Eprint, path: &str, error: &io::Error) -> io::Result<()> {
    let mut buffer = [0u8; REASON];
    let mut rest = &mut buffer[..];
    write!(rest, "{error}")?;
    let n = REASON.saturating_sub(rest.len());
    match str::from_utf8(&buffer[..n]) {
        Ok(text) => eprintln!(rt; "{path}: {}", reason(text)),
        Err(_) => eprintln!(rt; "{path}: {error}"),
    }
}

// The same of the file of that name. One that is not UTF-8 is not opened.
fn load_named(
    rt: &(impl Files + Eprint),
    name: &[u8],
    area: &mut [u32],
) -> io::Result<Option<usize>>
    ensures { IfOk result (λ found. IfSome found (λ n. n ≤ length area.old)) }
{
    match str::from_utf8(name) {
        Ok(path) => match open_file(rt, path, area) {
            Ok(n) => Ok(Some(n)),
            Err(error) => {
                name_reason(rt, path, &error)?;
                Ok(None)
            }
        },
        Err(error) => {
            eprintln!(rt; "{}: {error}", name.escape_ascii())?;
            Ok(None)
        }
    }
}

// The refusal of the fit call, else the finding of the run.
fn judge(doc: &[u32], state: &[u32], dict: &mut [u32], work: &mut [u32]) -> Result<Ending, Refusal>
    ensures { result ≡ judge_of (fit_of doc.now state.now (length dict.old) (length work.old)) (run_of doc.now state.now (length work.old)) }
{
    fitter::fit(doc, state, dict, work)?;
    evaluator::run(doc, state, work)
}

fn show(rt: &impl Print, finding: Result<Ending, Refusal>) -> io::Result<()> {
    match finding {
        Ok(ending) => println!(rt; "{ending}"),
        Err(refusal) => println!(rt; "{refusal}"),
    }
}

fn main(rt: HostRuntime) -> io::Result<()> {
    let mut doc = [0u32; DOCUMENT];
    let Some(n) = load(&rt, 1, &mut doc)? else {
        return Ok(());
    };
    let mut state = [0u32; DOCUMENT];
    let Some(m) = load(&rt, 2, &mut state)? else {
        return Ok(());
    };
    let mut dict = [0u32; DICTIONARY];
    let mut work = [0u32; WORK];
    show(&rt, judge(&doc[..n], &state[..m], &mut dict, &mut work))
}
