// The nodes of a readable document in the order of its tree, and the number that each has in it.
ghost use Rattle.std.specs.Prelude.{◌≡◌, ◌+◌, length};
ghost use Rattle.std.proofs.lemmas.List.Edits.{sets};
ghost use Rattle.reader_rules.specs.Below.{numbers_at};
ghost use Rattle.canonical.specs.Order.{Visit, Numberable, Numbers};

use layout::part;
use reader_nodes::counts::operand_count;
use reader_nodes::operands::sort_at;
use reader_nodes::sorts;
use words::{store, word};

// The numbers of node k and of all below it, from `at` on, operands before their node; where they end.
pub fn visit(doc: &[u32], k: usize, order: &mut [u32], at: usize) -> usize
    requires { Visit doc.now k at }
    ensures { (order.new ≡ sets order.old at (numbers_at doc.now k)) × (result ≡ at + length (numbers_at doc.now k)) }
{
    let w = part(doc, k);
    let n = operand_count(w);
    let mut end = at;
    for i in 1..n + 1 {
        if sorts::LAST_PLAIN < sort_at(w, i) {
            end = visit(doc, word(w, i), order, end);
        }
    }
    store(order, end, k as u32);
    end + 1
}

// For each of the nodes its place among them, from 1.
pub fn number(nodes: &[u32], numbers: &mut [u32])
    requires { Numberable nodes.now (length numbers.old) }
    ensures { Numbers nodes.now numbers.new }
{
    for (i, k) in nodes.iter().enumerate() {
        store(numbers, *k as usize, (i + 1) as u32);
    }
}
