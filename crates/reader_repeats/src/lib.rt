// Finding 16: identifiers and schema names written twice, by the table of parents.
#![tactic(auto)]

use crate::marks::{BITS, are_distinct, mark_new, share};
use crate::written::{declared_at, globals_at, parameters_at, schemas_at};
use codes::{findings, identifiers, kinds};
use layout::part;
use reader_nodes::nodes::kind_at;
use reader_nodes::operands::sort_at;
use reader_nodes::sorts;
use reader_rules::Refusal;
use words::word;

mod marks;
pub mod written;

ghost use Rattle.std.specs.Prelude.{◌≡◌, ◌+◌, ◌-◌, ◌≤◌, length};
ghost use Rattle.words.specs.Loops.{some};
ghost use Rattle.layout.specs.Layout.{count};
ghost use Rattle.reader_rules.specs.Nodes.{parent};
ghost use Rattle.reader_rules.specs.Repeats.{declared_in, repeats_in, repeat_number};
ghost use Rattle.reader_rules.specs.Reading.{lowest};
ghost use Rattle.reader_repeats.specs.Parents.{Linked};
ghost use Rattle.reader_repeats.specs.Marks.{Written, shared_at};

// The places of the tables of marks, which have a bit for each name, and one for each identifier.
const NAMES: usize = (identifiers::LARGEST_NAME + 1) / BITS;

const IDENTIFIERS: usize = identifiers::STROKES * NAMES;

// Operand i of the node with the words w is a Decl before node k that declares one of the identifiers.
fn shared_at(doc: &[u32], k: usize, ids: &[u32], w: &[u32], i: usize) -> bool
    ensures { result ≡ shared_at doc.now k ids.now w.now i }
{
    let d = word(w, i);
    if sort_at(w, i) <= sorts::LAST_PLAIN || k <= d {
        return false;
    }
    kind_at(doc, d) == kinds::DECL && share(declared_at(doc, d), ids)
}

#[tactic(auto, using(words::proofs::Loops::some_turns))]
fn shared_before(doc: &[u32], k: usize, ids: &[u32], w: &[u32]) -> bool
    ensures { result ≡ some (shared_at doc.now k ids.now w.now) 1 (length w.now - 1) }
{
    for i in 1..w.len() {
        if shared_at(doc, k, ids, w, i) {
            return true;
        }
    }
    false
}

// Node k is a Decl that repeats an identifier of its Text.
fn repeats_in_text(doc: &[u32], up: &[u32], k: usize) -> bool
    requires { Linked doc.now up.now × (1 ≤ k) × (k ≤ count doc.now) }
    ensures { result ≡ repeats_in (declared_in doc.now (parent doc.now k)) k }
{
    let q = kind_at(doc, k);
    if q == kinds::DECL {
        let ids = declared_at(doc, k);
        let t = word(up, k);
        if are_distinct(ids) {
            return shared_before(doc, k, ids, part(doc, t));
        }
        return true;
    }
    false
}

// 16 at node k, 0 for none; where it is 0 the tables of marks have what node k writes.
fn written_number(doc: &[u32], up: &[u32], k: usize, seen: &mut [u8], names: &mut [u8]) -> u32
    requires linked { Linked doc.now up.now × (1 ≤ k) × (k ≤ count doc.now) }
    requires written { Written doc.now k seen.old names.old }
    ensures { (result ≡ repeat_number doc.now k) × (result ≡ 0 → Written doc.now (k + 1) seen.new names.new) }
{
    if mark_new(globals_at(doc, up, k), seen) {
        if repeats_in_text(doc, up, k) {
            return findings::REPEATED;
        }
        if are_distinct(parameters_at(doc, k)) {
            if mark_new(schemas_at(doc, k), names) {
                return 0;
            }
            return findings::REPEATED;
        }
        return findings::REPEATED;
    }
    findings::REPEATED
}

// The same, at once for a node that writes nothing, as those after Include in the list of kinds.
fn repeat_number(doc: &[u32], up: &[u32], k: usize, seen: &mut [u8], names: &mut [u8]) -> u32
    requires linked { Linked doc.now up.now × (1 ≤ k) × (k ≤ count doc.now) }
    requires written { Written doc.now k seen.old names.old }
    ensures { (result ≡ repeat_number doc.now k) × (result ≡ 0 → Written doc.now (k + 1) seen.new names.new) }
{
    let q = kind_at(doc, k);
    if kinds::INCLUDE < q {
        return 0;
    }
    written_number(doc, up, k, seen, names)
}

// The first node that repeats what was written before it.
pub fn first_repeat(doc: &[u32], up: &[u32]) -> Result<(), Refusal>
    requires { Linked doc.now up.now }
    ensures { result ≡ lowest doc.now (repeat_number doc.now) }
{
    let mut seen = [0u8; IDENTIFIERS];
    let mut names = [0u8; NAMES];
    let n = word(doc, 0);
    for k in 1..n + 1 {
        let number = repeat_number(doc, up, k, &mut seen, &mut names);
        if number != 0 {
            return Err(Refusal {
                number: number,
                place: k as u32,
            });
        }
    }
    Ok(())
}
