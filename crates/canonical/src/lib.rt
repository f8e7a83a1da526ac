// The one coding of a document (document 02, ask 3): a readable document written again, operands before their node, in operand order, depth first.
#![tactic(auto)]

use codes::findings;
use codes::limits::NODES;
use reader_rules::Refusal;
use words::{clear, span, store, word};

mod order;
mod rows;

ghost use Rattle.std.specs.Prelude.{◌≡◌, length, replicate};
ghost use Rattle.std.proofs.lemmas.List.Edits.{sets};
ghost use Rattle.reader_rules.specs.Reading.{read_of};
ghost use Rattle.reader_rules.specs.Refusals.{Readable};
ghost use Rattle.canonical_rules.specs.Call.{canonical_words, CanonicalCall};

// The places of a table of nodes, which are numbered from 1.
const PLACES: usize = NODES + 1;

// Writes a readable document's nodes again.
fn write(doc: &[u32], output: &mut [u32])
    requires { read_of doc.now ≡ Readable }
    ensures { output.new ≡ sets output.old 0 (canonical_words doc.now) }
{
    let mut visited = [0u32; NODES];
    let mut numbers = [0u32; PLACES];
    let n = order::visit(doc, word(doc, 0), &mut visited, 0);
    let nodes = span(&visited, 0, n);
    order::number(nodes, &mut numbers);
    store(output, 0, n as u32);
    rows::put_pairs(doc, nodes, output);
    rows::put_rows(doc, nodes, &numbers, output);
}

// A readable document, with an output area of zeros: 27, or written there.
fn write_where_room(doc: &[u32], output: &mut [u32]) -> Result<(), Refusal>
    requires { (read_of doc.now ≡ Readable) × (output.old ≡ replicate (length output.old) 0) }
    ensures { CanonicalCall doc.now (length output.old) result output.new }
{
    if output.len() < doc.len() {
        return Err(Refusal {
            number: findings::OUTPUT_AREA,
            place: 0,
        });
    }
    write(doc, output);
    Ok(())
}

// Writes a document in the one coding: reading's finding first, then 27 at 0 where the output area is too short. The area holds the result and zeros
// after it, after a refusal zeros.
pub fn canonical(doc: &[u32], output: &mut [u32]) -> Result<(), Refusal>
    ensures { CanonicalCall doc.now (length output.old) result output.new }
{
    clear(output);
    reader::read(doc)?;
    write_where_room(doc, output)
}
