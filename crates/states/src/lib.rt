// States on words: how many names of a document a state gives values to, and finding 41 with its place. The definitions are in the crate `states_rules`.
#![tactic(auto)]

use codes::{findings, limits};
use layout::Form;
use reader_rules::Refusal;
use words::word;

mod entries;
pub mod names;
pub mod places;

ghost use Rattle.std.specs.Prelude.{◌≡◌};
ghost use Rattle.reader_rules.specs.Reading.{read_of};
ghost use Rattle.reader_rules.specs.Decode.{tree_of};
ghost use Rattle.reader_rules.specs.Refusals.{Readable};
ghost use Rattle.states_rules.specs.Names.{document_names};
ghost use Rattle.states_rules.specs.States.{state_of, state_check_of};

// Finding 41 of a state for a readable document. A state has at most 1,024 entries, so where there are more names their pairs are not needed.
pub fn first_ill_formed(doc: &[u32], state: &[u32]) -> Result<(), Refusal>
    requires { read_of doc.now ≡ Readable }
    ensures { result ≡ state_of (document_names (tree_of doc.now)) state.now }
{
    let mut table = [0u32; names::TABLE_WORDS];
    let n = names::put_names(doc, state, &mut table);
    let form = Form {
        fewest: 0,
        most: limits::NODES,
        shortest: 1,
        longest: limits::DOCUMENT_WORDS,
    };
    if layout::laid_out(state, form) {
        if word(state, 0) == n {
            return entries::first_ill_entry(&table, state, n);
        }
        return Err(Refusal {
            number: findings::ILL_FORMED,
            place: 0,
        });
    }
    Err(Refusal {
        number: findings::ILL_FORMED,
        place: 0,
    })
}

// The finding of a document with a state: reading's, else 41 with its place.
pub fn check_state(doc: &[u32], state: &[u32]) -> Result<(), Refusal>
    ensures { result ≡ state_check_of doc.now state.now }
{
    reader::read(doc)?;
    first_ill_formed(doc, state)
}
