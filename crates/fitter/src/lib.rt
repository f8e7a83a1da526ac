// The fit call: the check, then a state against its dictionary, 41 and 42. The definitions are in the crate `fitter_rules`.
#![tactic(auto)]

ghost use Rattle.std.specs.Prelude.{◌≡◌, length};
ghost use Rattle.reader_rules.specs.Reading.{read_of};
ghost use Rattle.reader_rules.specs.Decode.{tree_of};
ghost use Rattle.reader_rules.specs.Refusals.{Readable};
ghost use Rattle.checker_rules.specs.Dictionary.{Dictionary};
ghost use Rattle.checker_rules.specs.Areas.{answer_finding};
ghost use Rattle.states_rules.specs.Names.{document_names};
ghost use Rattle.states_rules.specs.States.{state_of};
ghost use Rattle.fitter_rules.specs.Fit.{fit_state};
ghost use Rattle.fitter_rules.specs.Areas.{FitCall};
ghost use Rattle.fitter_types.specs.Held.{Held};

use fitter_types::first_mistyped;
use reader_rules::Refusal;
use words::clear;

// The finding of a state for a document that the check accepted: 41, then 42.
fn fit_state(doc: &[u32], state: &[u32], dict: &[u32]) -> Result<(), Refusal>
    requires { read_of doc.now ≡ Readable }
    ensures { (E : Dictionary) → Held doc.now dict.now E → result ≡ answer_finding (fit_state (state_of (document_names (tree_of doc.now)) state.now) E (document_names (tree_of doc.now)) state.now) }
{
    states::first_ill_formed(doc, state)?;
    first_mistyped(doc, state, dict)
}

// The check of a document, then a state against its dictionary. On acceptance the dictionary stays; after a refusal both areas are zeros.
pub fn fit(doc: &[u32], state: &[u32], dict: &mut [u32], work: &mut [u32]) -> Result<(), Refusal>
    ensures { FitCall doc.now state.now (length dict.old) (length work.old) result dict.new work.new }
{
    checker::check(doc, dict, work)?;
    let fitted = fit_state(doc, state, dict);
    if fitted.is_err() {
        clear(dict);
    }
    fitted
}
