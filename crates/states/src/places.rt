// The entry of a name in a state.
ghost use Rattle.std.specs.Prelude.{◌≡◌, true, ◌-◌, ◌≤◌, ◌<◌, ◌^◌, length, drop};
ghost use Rattle.layout.specs.Layout.{part};
ghost use Rattle.reader_rules.specs.Kinds.{texts, lines, paragraphs};
ghost use Rattle.reader_rules.specs.Promise.{At};
ghost use Rattle.reader_rules.specs.Reading.{read_of};
ghost use Rattle.reader_rules.specs.Decode.{lines_from, paragraph_at, tree_of};
ghost use Rattle.reader_rules.specs.Refusals.{Readable};
ghost use Rattle.states_rules.specs.Names.{names_as, line_names, paragraph_names, document_names};
ghost use Rattle.states_rules.specs.States.{entry_from};
ghost use Rattle.states.specs.Table.{line_place};

use crate::names::{line_count, paragraph_count};
use codes::kinds;
use layout::part;
use reader_nodes::nodes::{kind_at, operand};
use words::{from, word};

// The entry of a name among the words from `from` on, the first of which has entry k; 0 for none. `true` stands for givens and others alike: the place is
// the same.
fn place_in(w: &[u32], from: usize, k: usize, name: usize) -> usize
    requires { (k < 2 ^ 16) × (length w.now ≤ 256) }
    ensures { result ≡ entry_from (names_as true (drop from w.now)) name k }
{
    let names = words::from(w, from);
    for (i, x) in names.iter().enumerate() {
        if *x as usize == name {
            return k + i;
        }
    }
    0
}

// The same among the names of line v, the first of which has entry k.
fn place_in_line(doc: &[u32], v: usize, k: usize, name: usize) -> usize
    requires { At doc.now lines v × (k < 2 ^ 16) }
    ensures { result ≡ line_place doc.now v name k }
{
    let q = kind_at(doc, v);
    if q == kinds::DECL {
        return place_in(part(doc, v), 2, k, name);
    }
    0
}

// The same among the names of the lines of Text t.
fn place_in_text(doc: &[u32], t: usize, k: usize, name: usize) -> usize
    requires { At doc.now texts t × (1 ≤ k) × (k < 2 ^ 15) }
    ensures { result ≡ entry_from (line_names (lines_from doc.now t 2 (length (part doc.now t) - 2))) name k }
{
    let lines = from(part(doc, t), 2);
    let mut at = k;
    for line in lines {
        let v = *line as usize;
        let r = place_in_line(doc, v, at, name);
        if r != 0 {
            return r;
        }
        at += line_count(doc, v);
    }
    0
}

// The same among the names of paragraph p.
fn place_in_paragraph(doc: &[u32], p: usize, k: usize, name: usize) -> usize
    requires { At doc.now paragraphs p × (1 ≤ k) × (k < 2 ^ 15) }
    ensures { result ≡ entry_from (paragraph_names (paragraph_at doc.now p)) name k }
{
    let q = kind_at(doc, p);
    if q == kinds::GIVEN {
        return place_in(part(doc, p), 1, k, name);
    }
    if q == kinds::AXIOM {
        return place_in_text(doc, operand(doc, p, 1), k, name);
    }
    0
}

// The number of the entry of a name, from 1; 0 for none.
pub fn place_of(doc: &[u32], name: usize) -> usize
    requires { read_of doc.now ≡ Readable }
    ensures { result ≡ entry_from (document_names (tree_of doc.now)) name 1 }
{
    let paragraphs = from(part(doc, word(doc, 0)), 1);
    let mut at = 1;
    for paragraph in paragraphs {
        let p = *paragraph as usize;
        let r = place_in_paragraph(doc, p, at, name);
        if r != 0 {
            return r;
        }
        at += paragraph_count(doc, p);
    }
    0
}
