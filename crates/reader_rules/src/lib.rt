// Coded documents: what they are and which findings reading gives. The definitions are in specs/; the code that is proved against them stands in the crates reader_nodes, reader_repeats and reader.
#![tactic(auto)]

ghost use Rattle.std.specs.Prelude.{Some};
ghost use Rattle.reader_rules.specs.Refusals.{refusal_text};

use std::fmt;

// Why words are refused: the number of the finding (crate `codes`), and the node, entry or paragraph that it is at, or 0.
#[derive(Clone, Copy, PartialEq, Eq)]
pub struct Refusal {
    pub number: u32,
    pub place: u32,
}

impl fmt::Display for Refusal {
    ghost output = { λ r. Some (refusal_text r) };

    fn fmt<W: fmt::Write>(&self, f: &mut fmt::Formatter<W>) -> fmt::Result {
        write!(f, "refused {} at {}", self.number, self.place)
    }
}
