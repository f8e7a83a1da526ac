// Finding 42: the values of a state against the types that the dictionary records.
#![tactic(auto)]

use crate::names::name_of;
use checker_dictionary::lookup::{entry_of_name, type_place};
use codes::findings;
use layout::part;
use reader_rules::Refusal;
use values_forms::typed::has_type;
use words::{from, word};

mod names;

ghost use Rattle.std.specs.Prelude.{◌≡◌, ◌≤◌, length};
ghost use Rattle.reader_rules.specs.Findings.{scan};
ghost use Rattle.reader_rules.specs.Reading.{read_of};
ghost use Rattle.reader_rules.specs.Decode.{tree_of};
ghost use Rattle.reader_rules.specs.Refusals.{Readable};
ghost use Rattle.checker_rules.specs.Dictionary.{Dictionary};
ghost use Rattle.states_rules.specs.Names.{document_names};
ghost use Rattle.states_rules.specs.States.{state_of};
ghost use Rattle.fitter_rules.specs.Fit.{type_number};
ghost use Rattle.fitter_types.specs.Held.{Held, TestedValue};

// Whether the value with the words w is of the type that the dictionary records for a name.
fn is_typed(dict: &[u32], id: usize, w: &[u32]) -> bool
    ensures { TestedValue dict.now id w.now result }
{
    let k = entry_of_name(dict, id);
    if k == 0 {
        return false;
    }
    has_type(from(dict, type_place(dict, k)), w)
}

// 42 at entry k, 0 for none.
fn type_number(doc: &[u32], state: &[u32], dict: &[u32], k: usize) -> u32
    requires { (read_of doc.now ≡ Readable) × (state_of (document_names (tree_of doc.now)) state.now ≡ Readable) × (1 ≤ k) × (k ≤ length (document_names (tree_of doc.now))) }
    ensures { (E : Dictionary) → Held doc.now dict.now E → result ≡ type_number E (document_names (tree_of doc.now)) state.now k }
{
    let name = name_of(doc, k);
    match name {
        None => 0,
        Some(identifier) => {
            if is_typed(dict, identifier, part(state, k)) {
                return 0;
            }
            findings::MISTYPED
        }
    }
}

// The first entry whose value is not of its recorded type.
pub fn first_mistyped(doc: &[u32], state: &[u32], dict: &[u32]) -> Result<(), Refusal>
    requires { (read_of doc.now ≡ Readable) × (state_of (document_names (tree_of doc.now)) state.now ≡ Readable) }
    ensures { (E : Dictionary) → Held doc.now dict.now E → result ≡ scan (type_number E (document_names (tree_of doc.now)) state.now) 1 (length (document_names (tree_of doc.now))) }
{
    let n = word(state, 0);
    for k in 1..n + 1 {
        let number = type_number(doc, state, dict, k);
        if number != 0 {
            return Err(Refusal {
                number: number,
                place: k as u32,
            });
        }
    }
    Ok(())
}
