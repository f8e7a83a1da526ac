// The check call: a document's finding, and the dictionary of an accepted one. The definitions are in the crate `checker_rules`, specs/Areas and specs/Check.
#![tactic(auto)]

ghost use Rattle.std.specs.Prelude.{◌≡◌, ◌≤◌, ◌<◌, length};
ghost use Rattle.layout.specs.Layout.{count};
ghost use Rattle.reader_rules.specs.Decode.{tree_of, paragraphs_from};
ghost use Rattle.reader_rules.specs.Reading.{read_of};
ghost use Rattle.reader_rules.specs.Refusals.{Readable};
ghost use Rattle.checker_rules.specs.Areas.{CheckCall};
ghost use Rattle.checker_rules.specs.Check.{paragraphs_of, check_work_words};
ghost use Rattle.checker_rules.specs.Dictionary.{Dictionary, blank};
ghost use Rattle.checker_lookup.specs.Scoped.{DictionaryHeld};
ghost use Rattle.checker.specs.Answering.{ParagraphsAsk, Answered, TreeAnswered, Answering};

use checker_dictionary::growth::begin;
use checker_dictionary::index;
use checker_extension::enter;
use codes::{findings, limits};
use layout::part;
use reader::read;
use reader_nodes::nodes::operand;
use reader_rules::Refusal;
use words::{clear, word};

// The m paragraphs from operand i of the Document on.
fn paragraphs_from(
    doc: &[u32],
    a: &mut [u32],
    dict: &mut [u32],
    work: &mut [u32],
    i: usize,
    m: usize,
) -> Result<(), Refusal>
    requires { ParagraphsAsk doc.now a.old dict.old work.old i m }
    ensures { (D : Dictionary) → DictionaryHeld D dict.old work.old → Answered (paragraphs_from doc.now (count doc.now) i m) D (length dict.old) dict.new result }
{
    let n = word(doc, 0);
    for j in i..i + m {
        enter(doc, a, dict, work, operand(doc, n, j))?;
    }
    Ok(())
}

// The paragraphs of a readable document, with areas that have room for a dictionary and for the work.
fn check_paragraphs(doc: &[u32], dict: &mut [u32], work: &mut [u32]) -> Result<(), Refusal>
    requires { (read_of doc.now ≡ Readable) × (check_work_words ≤ length work.old) × (0 < length dict.old) }
    ensures { Answered (paragraphs_of (tree_of doc.now)) blank (length dict.old) dict.new result }
{
    let mut a = [0u32; types_cells::area::AREA];
    begin(dict);
    index::begin(work);
    let n = word(doc, 0);
    let m = part(doc, n).len() - 1;
    paragraphs_from(doc, &mut a, dict, work, 1, m)
}

// A readable document: 21, then 22 at 0, then the paragraphs.
fn check_tree(doc: &[u32], dict: &mut [u32], work: &mut [u32]) -> Result<(), Refusal>
    requires { read_of doc.now ≡ Readable }
    ensures { TreeAnswered (tree_of doc.now) (length dict.old) (length work.old) dict.new result }
{
    if work.len() < limits::CHECK_WORK_WORDS {
        return Err(Refusal {
            number: findings::WORK_AREA,
            place: 0,
        });
    }
    if dict.len() == 0 {
        return Err(Refusal {
            number: findings::DICTIONARY_AREA,
            place: 0,
        });
    }
    check_paragraphs(doc, dict, work)
}

// Reading's finding where there is one. The areas are not cleared yet.
fn check_words(doc: &[u32], dict: &mut [u32], work: &mut [u32]) -> Result<(), Refusal>
    ensures { Answering doc.now (length dict.old) (length work.old) dict.new result }
{
    read(doc)?;
    check_tree(doc, dict, work)
}

// The check of any words, with areas of any length.
pub fn check(doc: &[u32], dict: &mut [u32], work: &mut [u32]) -> Result<(), Refusal>
    ensures { CheckCall doc.now (length dict.old) (length work.old) result dict.new work.new }
{
    let found = check_words(doc, dict, work);
    clear(work);
    if found.is_err() {
        clear(dict);
    }
    found
}
