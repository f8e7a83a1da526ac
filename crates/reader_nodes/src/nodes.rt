// Findings 12 to 14, node by node.
ghost use Rattle.std.specs.Prelude.{◌≡◌, ◌<◌, ◌^◌};
ghost use Rattle.reader_rules.specs.Nodes.{kind_at, operand_at};
ghost use Rattle.reader_rules.specs.Findings.{plain_at, plain_words, lower_at, lower_nodes, number_of, node_number};
ghost use Rattle.reader_rules.specs.Reading.{lowest};

use crate::counts::{count_ok, is_listed};
use crate::kinds::of_sort;
use crate::operands::sort_at;
use crate::plain::plain_ok;
use crate::sorts;
use codes::findings;
use layout::part;
use reader_rules::Refusal;
use words::word;

// The kind of node k.
pub fn kind_at(doc: &[u32], k: usize) -> usize
    ensures { (result ≡ kind_at doc.now k) × (result < 2 ^ 32) }
{
    word(part(doc, k), 0)
}

// Operand i of node k, from 1.
pub fn operand(doc: &[u32], k: usize, i: usize) -> usize
    ensures { (result ≡ operand_at doc.now k i) × (result < 2 ^ 32) }
{
    word(part(doc, k), i)
}

// Operand i of the node with these words is a node, or a plain word in range.
fn plain_at(w: &[u32], i: usize) -> bool
    ensures { result ≡ plain_at w.now i }
{
    plain_ok(sort_at(w, i), word(w, i))
}

#[tactic(auto, using(words::proofs::Loops::every_turns))]
fn plain_words(w: &[u32]) -> bool
    ensures { result ≡ plain_words w.now }
{
    for i in 1..w.len() {
        if !plain_at(w, i) {
            return false;
        }
    }
    true
}

// Operand i of node k, with the words w, is a plain word, or a lower node of its sort.
fn lower_at(doc: &[u32], k: usize, w: &[u32], i: usize) -> bool
    ensures { result ≡ lower_at doc.now k w.now i }
{
    let s = sort_at(w, i);
    let v = word(w, i);
    if s <= sorts::LAST_PLAIN {
        return true;
    }
    1 <= v && v < k && of_sort(s, kind_at(doc, v))
}

#[tactic(auto, using(words::proofs::Loops::every_turns))]
fn lower_nodes(doc: &[u32], k: usize, w: &[u32]) -> bool
    ensures { result ≡ lower_nodes doc.now k w.now }
{
    for i in 1..w.len() {
        if !lower_at(doc, k, w, i) {
            return false;
        }
    }
    true
}

// The number of the finding at node k, with the words w; 0 for none.
fn number_of(doc: &[u32], k: usize, w: &[u32]) -> u32
    ensures { result ≡ number_of doc.now k w.now }
{
    if !is_listed(word(w, 0)) {
        return findings::UNLISTED_KIND;
    }
    if !count_ok(w) || !plain_words(w) {
        return findings::WRONG_OPERANDS;
    }
    if !lower_nodes(doc, k, w) {
        return findings::WRONG_NODE;
    }
    0
}

// The first finding among the nodes.
#[tactic(auto, using(reader_rules::proofs::Scan::scan_turns))]
pub fn check_nodes(doc: &[u32]) -> Result<(), Refusal>
    ensures { result ≡ lowest doc.now (node_number doc.now) }
{
    let n = word(doc, 0);
    for k in 1..n + 1 {
        let number = number_of(doc, k, part(doc, k));
        if number != 0 {
            return Err(Refusal {
                number: number,
                place: k as u32,
            });
        }
    }
    Ok(())
}
