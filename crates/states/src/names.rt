// The names of a readable document, in Document order: how many, and the givens among them with the sizes that a state gives them.
ghost use Rattle.std.specs.Prelude.{◌≡◌, ◌+◌, ◌-◌, ◌*◌, ◌≤◌, ◌<◌, ◌^◌, length, get_or, drop, true};
ghost use Rattle.layout.specs.Layout.{part};
ghost use Rattle.reader_rules.specs.Kinds.{texts, lines, paragraphs};
ghost use Rattle.reader_rules.specs.Promise.{At};
ghost use Rattle.reader_rules.specs.Reading.{read_of};
ghost use Rattle.reader_rules.specs.Decode.{lines_from, paragraph_at, tree_of};
ghost use Rattle.reader_rules.specs.Refusals.{Readable};
ghost use Rattle.states_rules.specs.Names.{names_as, line_names, paragraph_names, document_names};
ghost use Rattle.states.specs.Table.{put_pair, put_names, line_count};

use codes::{kinds, limits};
use layout::part;
use reader_nodes::nodes::{kind_at, operand};
use words::{from, store, word};

// The words of the table of names: for each entry of a state, from 1 on, its given and the size of that; a pair of zeros where the name is no given.
pub const TABLE_WORDS: usize = 2 * (limits::NODES + 1);

// The number of names that line k writes.
pub fn line_count(doc: &[u32], k: usize) -> usize
    requires { At doc.now lines k }
    ensures { (result ≡ line_count doc.now k) × (result ≤ 8) }
{
    let q = kind_at(doc, k);
    if q == kinds::DECL {
        return part(doc, k).len() - 2;
    }
    0
}

// The number of names that the lines of Text t write.
pub fn text_count(doc: &[u32], t: usize) -> usize
    requires { At doc.now texts t }
    ensures { (result ≡ length (line_names (lines_from doc.now t 2 (length (part doc.now t) - 2)))) × (result ≤ 64) }
{
    let lines = from(part(doc, t), 2);
    let mut n = 0;
    for line in lines {
        n += line_count(doc, *line as usize);
    }
    n
}

// The number of names of paragraph p.
pub fn paragraph_count(doc: &[u32], p: usize) -> usize
    requires { At doc.now paragraphs p }
    ensures { (result ≡ length (paragraph_names (paragraph_at doc.now p))) × (result ≤ 64) }
{
    let q = kind_at(doc, p);
    if q == kinds::GIVEN {
        return part(doc, p).len() - 1;
    }
    if q == kinds::AXIOM {
        return text_count(doc, operand(doc, p, 1));
    }
    0
}

// The pair of entry k, whose name is the given that word i is.
fn put_pair(w: &[u32], i: usize, state: &[u32], k: usize, table: &mut [u32])
    requires { k < 2 ^ 32 }
    ensures { table.new ≡ put_pair (get_or w.now i 0) state.now k table.old }
{
    store(table, 2 * k, word(w, i) as u32);
    store(table, 2 * k + 1, word(part(state, k), 0) as u32);
}

// The pairs of a Given with the words w, after n names.
fn put_given(w: &[u32], state: &[u32], n: usize, table: &mut [u32])
    requires { (n < 2 ^ 16) × (length w.now ≤ 256) }
    ensures { table.new ≡ put_names (names_as true (drop 1 w.now)) state.now (n + 1) table.old }
{
    for i in 1..w.len() {
        put_pair(w, i, state, n + i, table);
    }
}

// The names of paragraph k, after n names: the number of names then, and the pairs.
fn put_paragraph(doc: &[u32], k: usize, state: &[u32], n: usize, table: &mut [u32]) -> usize
    requires { At doc.now paragraphs k × (n < 2 ^ 16) }
    ensures { (result ≡ n + length (paragraph_names (paragraph_at doc.now k))) × (table.new ≡ put_names (paragraph_names (paragraph_at doc.now k)) state.now (n + 1) table.old) × (result ≤ n + 64) }
{
    let q = kind_at(doc, k);
    if q == kinds::GIVEN {
        let w = part(doc, k);
        put_given(w, state, n, table);
        return n + (w.len() - 1);
    }
    if q == kinds::AXIOM {
        return n + text_count(doc, operand(doc, k, 1));
    }
    n
}

// The names of the document: their number, and the pairs.
pub fn put_names(doc: &[u32], state: &[u32], table: &mut [u32]) -> usize
    requires { read_of doc.now ≡ Readable }
    ensures { (result ≡ length (document_names (tree_of doc.now))) × (table.new ≡ put_names (document_names (tree_of doc.now)) state.now 1 table.old) }
{
    let paragraphs = from(part(doc, word(doc, 0)), 1);
    let mut n = 0;
    for p in paragraphs {
        n = put_paragraph(doc, *p as usize, state, n, table);
    }
    n
}
