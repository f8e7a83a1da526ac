// The reader of coded documents: findings 11 to 17 for any words (document 01, "The coded document", "Finding numbers").
#![tactic(auto)]

use codes::findings;
use codes::limits::{DOCUMENT_WORDS, NODES};
use layout::Form;
use reader_nodes::nodes::check_nodes;
use reader_repeats::first_repeat;
use reader_rules::Refusal;

mod limits;
mod links;

ghost use Rattle.std.specs.Prelude.{◌≡◌, true};
ghost use Rattle.layout.specs.Layout.{laid_out};
ghost use Rattle.reader_rules.specs.Nodes.{document_form};
ghost use Rattle.reader_rules.specs.Findings.{node_number, use_number};
ghost use Rattle.reader_rules.specs.Repeats.{repeat_number};
ghost use Rattle.reader_rules.specs.Limits.{limit_number};
ghost use Rattle.reader_rules.specs.Findings.{and_then};
ghost use Rattle.reader_rules.specs.Reading.{lowest, read_of};
ghost use Rattle.reader_rules.specs.Refusals.{Readable};
ghost use Rattle.reader_repeats.specs.Parents.{Linked};

// The places of a table of nodes, which are numbered from 1.
const PLACES: usize = NODES + 1;

// Findings 16 and 17, by the table of parents.
fn check_tree(doc: &[u32], up: &[u32]) -> Result<(), Refusal>
    requires { Linked doc.now up.now }
    ensures { result ≡ and_then (lowest doc.now (repeat_number doc.now)) (lowest doc.now (limit_number doc.now)) }
{
    first_repeat(doc, up)?;
    limits::first_past_limit(doc, up)
}

// Findings 15 to 17, of a document whose nodes are in order.
fn check_uses_and_tree(doc: &[u32]) -> Result<(), Refusal>
    requires { (laid_out document_form doc.now ≡ true) × (lowest doc.now (node_number doc.now) ≡ Readable) }
    ensures { result ≡ and_then (lowest doc.now (use_number doc.now)) (and_then (lowest doc.now (repeat_number doc.now)) (lowest doc.now (limit_number doc.now))) }
{
    let mut used = [0u32; PLACES];
    let mut up = [0u32; PLACES];
    links::link_nodes(doc, &mut used, &mut up);
    links::first_misused(doc, &used)?;
    check_tree(doc, &up)
}

// The finding of reading a document.
pub fn read(doc: &[u32]) -> Result<(), Refusal>
    ensures { result ≡ read_of doc.now }
{
    let form = Form {
        fewest: 1,
        most: NODES,
        shortest: 1,
        longest: DOCUMENT_WORDS,
    };
    if !layout::laid_out(doc, form) {
        return Err(Refusal {
            number: findings::BROKEN_LAYOUT,
            place: 0,
        });
    }
    check_nodes(doc)?;
    check_uses_and_tree(doc)
}
