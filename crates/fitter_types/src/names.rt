// The name of an entry of the state, found in the document.
ghost use Rattle.std.specs.Prelude.{◌≡◌, ◌-◌, ◌≤◌, ◌<◌, length, get_or};
ghost use Rattle.layout.specs.Layout.{part};
ghost use Rattle.reader_rules.specs.Kinds.{texts, paragraphs};
ghost use Rattle.reader_rules.specs.Promise.{At};
ghost use Rattle.reader_rules.specs.Reading.{read_of};
ghost use Rattle.reader_rules.specs.Decode.{lines_from, paragraph_at, tree_of};
ghost use Rattle.reader_rules.specs.Refusals.{Readable};
ghost use Rattle.states_rules.specs.Names.{nobody, line_names, paragraph_names, document_names};
ghost use Rattle.states_rules.specs.States.{name_at};
ghost use Rattle.fitter_types.specs.Roles.{identifier_at, role_of};

use codes::kinds;
use layout::part;
use reader_nodes::nodes::{kind_at, operand};
use states::names::{line_count, paragraph_count};
use words::{from, word};

// The identifier of name j, from 0, among those of the lines of Text t; 0 where there are fewer.
fn name_in_text(doc: &[u32], t: usize, j: usize) -> usize
    requires { At doc.now texts t }
    ensures { result ≡ identifier_at (line_names (lines_from doc.now t 2 (length (part doc.now t) - 2))) j }
{
    let lines = from(part(doc, t), 2);
    let mut at = j;
    for line in lines {
        let v = *line as usize;
        let n = line_count(doc, v);
        if at < n {
            return operand(doc, v, 2 + at);
        }
        at -= n;
    }
    0
}

// Name j of paragraph p: its identifier, or None for a given.
fn name_in_paragraph(doc: &[u32], p: usize, j: usize) -> Option<usize>
    requires { At doc.now paragraphs p × (j < length (paragraph_names (paragraph_at doc.now p))) }
    ensures { result ≡ role_of (get_or (paragraph_names (paragraph_at doc.now p)) j nobody) }
{
    let q = kind_at(doc, p);
    if q == kinds::AXIOM {
        let i = name_in_text(doc, operand(doc, p, 1), j);
        return Some(i);
    }
    None
}

// The name of entry k: its identifier, or None for a given.
pub fn name_of(doc: &[u32], k: usize) -> Option<usize>
    requires { (read_of doc.now ≡ Readable) × (1 ≤ k) }
    ensures { result ≡ role_of (name_at (document_names (tree_of doc.now)) k) }
{
    let paragraphs = from(part(doc, word(doc, 0)), 1);
    let mut at = k - 1;
    for paragraph in paragraphs {
        let p = *paragraph as usize;
        let n = paragraph_count(doc, p);
        if at < n {
            return name_in_paragraph(doc, p, at);
        }
        at -= n;
    }
    Some(0)
}
