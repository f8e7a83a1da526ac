// Paragraphs: their findings, and the entries that wait for their end. The pool is empty before and after.
ghost use Rattle.std.specs.Prelude.{◌≡◌};
ghost use Rattle.reader_rules.specs.Kinds.{paragraphs};
ghost use Rattle.reader_rules.specs.Nodes.{kind_at};
ghost use Rattle.reader_rules.specs.Promise.{At};
ghost use Rattle.reader_rules.specs.Decode.{paragraph_at};
ghost use Rattle.checker_contracts.specs.Paragraphs.{ParagraphAsk, ParagraphDone};
ghost use Rattle.checker_closing.specs.Nodes.{Node};

use crate::ENTRIES;
use crate::abbreviations::abbreviated;
use crate::schemas::schema;
use checker_closing::results::{Lined, lined_at, unlined};
use checker_dictionary::index;
use checker_entries::parameters::{FIRST_PARAMETER, POOL_START, push_parameters};
use checker_entries::{given_entries, name_entries, schema_entry};
use checker_merging::names_new;
use checker_nodes::nodes::{expr, pred, text};
use codes::{findings, kinds};
use layout::part;
use types_cells::area::FIRST_RUN;
use types_instances::wipe;
use words::word;

// The work area: rows of the scope, the dictionary's index, then tables and frames.
const FRAMES: usize = index::END;

// 2 Given: 36, and entries as written.
fn given(doc: &[u32], a: &[u32], d: &[u32], w: &mut [u32], k: usize, p: &[u32]) -> Lined
    requires { Node doc.now p.now paragraphs k × (kind_at doc.now k ≡ 2) × ParagraphAsk a.now d.now w.old (paragraph_at doc.now k) }
    ensures { ParagraphDone a.now a.now d.now w.old w.new (paragraph_at doc.now k) result.number result.place result.at result.count }
{
    if !names_new(d, w, p, 1) {
        return lined_at(findings::CLASH, k, 0, 0);
    }
    given_entries(w, p, 1, ENTRIES);
    lined_at(0, k, p.len() - 1, ENTRIES)
}

// 3 Axiom: its Text's identifiers become global.
fn axiomatic(doc: &[u32], a: &mut [u32], d: &[u32], w: &mut [u32], k: usize, p: &[u32]) -> Lined
    requires { Node doc.now p.now paragraphs k × (kind_at doc.now k ≡ 3) × ParagraphAsk a.old d.now w.old (paragraph_at doc.now k) }
    ensures { ParagraphDone a.old a.new d.now w.old w.new (paragraph_at doc.now k) result.number result.place result.at result.count }
{
    let t = text(doc, a, d, w, 0, POOL_START, FRAMES, word(p, 1), true);
    if t.number != 0 {
        return t;
    }
    name_entries(a, d, w, FRAMES, t.count, ENTRIES);
    wipe(a, POOL_START, t.at);
    lined_at(0, k, t.count, ENTRIES)
}

// 4 Schema: parameters, schema expression, one entry.
fn schema_paragraph(
    doc: &[u32],
    a: &mut [u32],
    d: &[u32],
    w: &mut [u32],
    k: usize,
    p: &[u32],
) -> Lined
    requires { Node doc.now p.now paragraphs k × (kind_at doc.now k ≡ 4) × ParagraphAsk a.old d.now w.old (paragraph_at doc.now k) }
    ensures { ParagraphDone a.old a.new d.now w.old w.new (paragraph_at doc.now k) result.number result.place result.at result.count }
{
    let n = word(p, 2);
    let at = push_parameters(a, w, p, 0, n);
    let t = schema(doc, a, d, w, n, at, FRAMES, word(p, n + FIRST_PARAMETER));
    if t.number != 0 {
        return t;
    }
    schema_entry(a, d, w, FRAMES, t.count, word(p, 1), n, ENTRIES);
    wipe(a, POOL_START, t.at);
    lined_at(0, k, 1, ENTRIES)
}

// 5 Abbreviation: parameters, its expression as a closed piece, one entry.
fn abbreviation(doc: &[u32], a: &mut [u32], d: &[u32], w: &mut [u32], k: usize, p: &[u32]) -> Lined
    requires { Node doc.now p.now paragraphs k × (kind_at doc.now k ≡ 5) × ParagraphAsk a.old d.now w.old (paragraph_at doc.now k) }
    ensures { ParagraphDone a.old a.new d.now w.old w.new (paragraph_at doc.now k) result.number result.place result.at result.count }
{
    let n = word(p, 2);
    let at = push_parameters(a, w, p, 0, n);
    let x = expr(
        doc,
        a,
        d,
        w,
        n,
        0,
        FIRST_RUN,
        at,
        FRAMES,
        word(p, n + FIRST_PARAMETER),
    );
    abbreviated(a, d, w, k, p, n, x)
}

// 6 Constraint: no entry.
fn constraint(doc: &[u32], a: &mut [u32], d: &[u32], w: &mut [u32], k: usize, p: &[u32]) -> Lined
    requires { Node doc.now p.now paragraphs k × (kind_at doc.now k ≡ 6) × ParagraphAsk a.old d.now w.old (paragraph_at doc.now k) }
    ensures { ParagraphDone a.old a.new d.now w.old w.new (paragraph_at doc.now k) result.number result.place result.at result.count }
{
    let x = pred(doc, a, d, w, 0, POOL_START, FRAMES, word(p, 1));
    unlined(x.number, x.place)
}

// A paragraph: `count` of its entries wait at the place `at` of the work area.
pub fn paragraph(doc: &[u32], a: &mut [u32], d: &[u32], w: &mut [u32], k: usize) -> Lined
    requires { At doc.now paragraphs k × ParagraphAsk a.old d.now w.old (paragraph_at doc.now k) }
    ensures { ParagraphDone a.old a.new d.now w.old w.new (paragraph_at doc.now k) result.number result.place result.at result.count }
{
    let p = part(doc, k);
    let q = word(p, 0);
    if q == kinds::GIVEN {
        return given(doc, a, d, w, k, p);
    }
    if q == kinds::AXIOM {
        return axiomatic(doc, a, d, w, k, p);
    }
    if q == kinds::SCHEMA {
        return schema_paragraph(doc, a, d, w, k, p);
    }
    if q == kinds::ABBREVIATION {
        return abbreviation(doc, a, d, w, k, p);
    }
    constraint(doc, a, d, w, k, p)
}
