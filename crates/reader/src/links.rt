// Uses and parents of nodes, and finding 15.
ghost use Rattle.std.specs.Prelude.{◌≡◌, ◌≤◌, ◌<◌, ◌^◌};
ghost use Rattle.layout.specs.Layout.{count};
ghost use Rattle.reader_rules.specs.Findings.{use_number};
ghost use Rattle.reader_rules.specs.Reading.{lowest};
ghost use Rattle.reader_repeats.specs.Parents.{places};
ghost use Rattle.reader.specs.Links.{bump, tally_at, tally_node, tally, link_at, link_node, link, Used};

use codes::{findings, kinds};
use layout::part;
use reader_nodes::nodes::kind_at;
use reader_nodes::operands::sort_at;
use reader_nodes::sorts;
use reader_rules::Refusal;
use words::{store, word};

// One more use of node v, as far as it matters.
fn mark(used: &mut [u32], v: usize)
    ensures { used.new ≡ bump used.old v }
{
    if v < used.len() {
        if used[v] == 0 {
            used[v] = 1;
        } else {
            used[v] = 2;
        }
    }
}

// Operand i of node k, with the words w, is used by k.
#[tactic(auto, unfolding(crate::specs::Links::tally_at, crate::specs::Links::link_at))]
fn link_at(w: &[u32], k: usize, i: usize, used: &mut [u32], up: &mut [u32])
    requires { k < 2 ^ 32 }
    ensures { (used.new ≡ tally_at w.now i used.old) × (up.new ≡ link_at w.now k i up.old) }
{
    if sort_at(w, i) <= sorts::LAST_PLAIN {
        return;
    }
    let v = word(w, i);
    mark(used, v);
    store(up, v, k as u32);
}

#[tactic(auto, using(words::proofs::Loops::run_turns))]
fn link_node(w: &[u32], k: usize, used: &mut [u32], up: &mut [u32])
    requires { k < 2 ^ 32 }
    ensures { (used.new ≡ tally_node w.now used.old) × (up.new ≡ link_node w.now k up.old) }
{
    for i in 1..w.len() {
        link_at(w, k, i, used, up);
    }
}

// Fills the tables of uses and parents.
#[tactic(auto, using(words::proofs::Loops::run_turns))]
pub fn link_nodes(doc: &[u32], used: &mut [u32], up: &mut [u32])
    requires { count doc.now ≤ 1024 }
    ensures { (used.new ≡ tally doc.now used.old) × (up.new ≡ link doc.now up.old) }
{
    for k in 1..word(doc, 0) + 1 {
        link_node(part(doc, k), k, used, up);
    }
}

// 15 at node k, 0 for none.
#[tactic(auto, using(crate::proofs::LinkLaws::used_one), unfolding(reader_rules::specs::Findings::use_number))]
fn use_number(doc: &[u32], used: &[u32], k: usize) -> u32
    requires { Used doc.now used.now × (k < places) }
    ensures { result ≡ use_number doc.now k }
{
    let is_document = kind_at(doc, k) == kinds::DOCUMENT;
    let is_right = if k < word(doc, 0) {
        word(used, k) == 1 && !is_document
    } else {
        is_document
    };
    if is_right { 0 } else { findings::WRONG_USE }
}

// The first node that is used twice or never, or is a Document that is not last, or is last and no Document.
#[tactic(auto, using(reader_rules::proofs::Scan::scan_turns))]
pub fn first_misused(doc: &[u32], used: &[u32]) -> Result<(), Refusal>
    requires { Used doc.now used.now × (count doc.now ≤ 1024) }
    ensures { result ≡ lowest doc.now (use_number doc.now) }
{
    let n = word(doc, 0);
    for k in 1..n + 1 {
        let number = use_number(doc, used, k);
        if number != 0 {
            return Err(Refusal {
                number: number,
                place: k as u32,
            });
        }
    }
    Ok(())
}
