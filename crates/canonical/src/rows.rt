// The nodes written again: the pairs, then the words of each node.
ghost use Rattle.std.specs.Prelude.{◌≡◌, map, ◌+◌, ◌*◌, ◌≤◌, ◌<◌, ◌^◌, length};
ghost use Rattle.std.proofs.lemmas.List.Edits.{sets};
ghost use Rattle.layout.specs.Layout.{part};
ghost use Rattle.layout.specs.Rows.{row_pairs, row_words};
ghost use Rattle.reader_rules.specs.Nodes.{document_words};
ghost use Rattle.canonical_rules.specs.RowMap.{map_row};
ghost use Rattle.canonical.specs.Rows.{table_at, operand_by, Fitting};

use layout::part;
use reader_nodes::operands::sort_at;
use reader_nodes::sorts;
use words::{store, word};

// Operand i of the node with the words w, with its new number where it is a node.
fn new_operand(w: &[u32], numbers: &[u32], i: usize) -> usize
    ensures { (result ≡ operand_by numbers.now w.now i) × (result < 2 ^ 32) }
{
    let v = word(w, i);
    if sort_at(w, i) <= sorts::LAST_PLAIN {
        return v;
    }
    word(numbers, v)
}

// The words w of a node with the new numbers of its operands, from `at` on.
fn put_row(w: &[u32], numbers: &[u32], output: &mut [u32], at: usize)
    requires { (1 ≤ length w.now) × (at + length w.now ≤ document_words) }
    ensures { output.new ≡ sets output.old at (map_row (table_at numbers.now) w.now) }
{
    store(output, at, word(w, 0) as u32);
    for i in 1..w.len() {
        store(output, at + i, new_operand(w, numbers, i) as u32);
    }
}

// The pairs of the nodes, whose words follow the pairs.
pub fn put_pairs(doc: &[u32], nodes: &[u32], output: &mut [u32])
    requires { Fitting doc.now nodes.now }
    ensures { output.new ≡ sets output.old 1 (row_pairs (map (part doc.now) nodes.now) (1 + 2 * length nodes.now)) }
{
    let mut at = 1 + 2 * nodes.len();
    for (i, k) in nodes.iter().enumerate() {
        let w = part(doc, *k as usize);
        let len = w.len();
        store(output, 2 * i + 1, at as u32);
        store(output, 2 * i + 2, len as u32);
        at += len;
    }
}

// The words of the nodes, after the pairs.
pub fn put_rows(doc: &[u32], nodes: &[u32], numbers: &[u32], output: &mut [u32])
    requires { Fitting doc.now nodes.now }
    ensures { output.new ≡ sets output.old (1 + 2 * length nodes.now) (row_words (map (λ k. map_row (table_at numbers.now) (part doc.now k)) nodes.now)) }
{
    let mut at = 1 + 2 * nodes.len();
    for k in nodes {
        let w = part(doc, *k as usize);
        put_row(w, numbers, output, at);
        at += w.len();
    }
}
