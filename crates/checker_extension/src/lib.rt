// The dictionary extended by one paragraph of the Document: its finding, then 22, else its entries.
#![tactic(auto)]

ghost use Rattle.std.specs.Prelude.{◌≡◌, List, ◌≤◌, ◌^◌, length};
ghost use Rattle.reader_rules.specs.Decode.{paragraph_at};
ghost use Rattle.checker_rules.specs.Dictionary.{Entry, Dictionary, dictionary_length};
ghost use Rattle.checker_dictionary.specs.Holds.{Holds};
ghost use Rattle.checker_dictionary.specs.Waiting.{with_entries, Waits, Waiting, AppendedAll};
ghost use Rattle.checker_contracts.specs.Paragraphs.{ParagraphDone};
ghost use Rattle.checker_extension.specs.Entering.{IsParagraph, BetweenParagraphs, Entered};

use checker_closing::results::Lined;
use checker_dictionary::growth::size;
use checker_dictionary::index;
use checker_dictionary::waiting::append_all;
use checker_paragraphs::paragraphs::paragraph;
use codes::findings;
use reader_rules::Refusal;
use words::{span, word};

// The words of an area that a dictionary may use: offsets and lengths are 32 bits.
const MOST_WORDS: usize = 2147483648;

// The paragraph at node k, over the words of the dictionary that are in use.
fn visit(doc: &[u32], a: &mut [u32], dict: &[u32], work: &mut [u32], k: usize) -> Lined
    requires { IsParagraph doc.now k × BetweenParagraphs a.old dict.now work.old }
    ensures { ParagraphDone a.old a.new dict.now work.old work.new (paragraph_at doc.now k) result.number result.place result.at result.count }
{
    let n = size(dict);
    paragraph(doc, a, span(dict, 0, n), work, k)
}

// The m entries that wait at `at` are appended, in an area of any length; false where one does not fit.
fn append(dict: &mut [u32], work: &[u32], at: usize, m: usize) -> bool
    requires { Waiting work.now at m }
    ensures { (D : Dictionary) (es : List Entry) → length es ≡ m → Holds D dict.old → Waits es work.now at → dictionary_length (with_entries es D) ≤ 2 ^ 31 → AppendedAll D es dict.old dict.new result }
{
    if MOST_WORDS < dict.len() {
        return append_all(&mut dict[..MOST_WORDS], work, at, m);
    }
    append_all(dict, work, at, m)
}

// The paragraph at node k: its finding, then 22; Accepted where the dictionary and its index have its entries.
pub fn enter(
    doc: &[u32],
    a: &mut [u32],
    dict: &mut [u32],
    work: &mut [u32],
    k: usize,
) -> Result<(), Refusal>
    requires { IsParagraph doc.now k × BetweenParagraphs a.old dict.old work.old }
    ensures { Entered a.old a.new dict.old dict.new work.old work.new (paragraph_at doc.now k) result }
{
    let n = word(dict, 0);
    let p = visit(doc, a, dict, work, k);
    if p.number != 0 {
        return Err(Refusal {
            number: p.number,
            place: p.place,
        });
    }
    let at = p.at;
    let m = p.count;
    if append(dict, work, at, m) {
        index::extend(dict, work, n);
        return Ok(());
    }
    Err(Refusal {
        number: findings::DICTIONARY_AREA,
        place: k as u32,
    })
}
