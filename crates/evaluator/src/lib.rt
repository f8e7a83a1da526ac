// The run call. The definitions are in the crate `evaluator_rules`, the paragraphs in `evaluator_paragraphs`; nothing here looks at the checker.
// Document 01, forms: "the run rests on the reader's promise and on nothing inside the checker".
#![tactic(auto)]

ghost use Rattle.std.specs.Prelude.{◌≡◌, ◌≤◌, length};
ghost use Rattle.reader_rules.specs.Reading.{read_of};
ghost use Rattle.reader_rules.specs.Decode.{tree_of};
ghost use Rattle.reader_rules.specs.Refusals.{Readable};
ghost use Rattle.states_rules.specs.Names.{document_names};
ghost use Rattle.states_rules.specs.States.{state_of};
ghost use Rattle.evaluator_rules.specs.Outcomes.{Outcome};
ghost use Rattle.evaluator_rules.specs.Paragraphs.{Step, run_document};
ghost use Rattle.evaluator_rules.specs.Run.{ending, run_state, run_of, run_work_words};
ghost use Rattle.evaluator_operations.specs.Worked.{Told};
ghost use Rattle.evaluator_scope.specs.Named.{said};
ghost use Rattle.evaluator_paragraphs.specs.Paragraphs.{Stepped};
ghost use Rattle.evaluator.specs.RunCall.{RunCall};

use codes::{findings, limits};
use evaluator_paragraphs::Progress;
use evaluator_rules::Ending;
use layout::part;
use reader_rules::Refusal;
use words::{clear, word};

// What a result of the paragraphs says of the run.
fn finding_of(y: Result<Progress, Refusal>) -> Result<Ending, Refusal>
    ensures { (o : Outcome Step) → Told (Stepped (λ s. Unit {0})) y o → result ≡ (ending o).finding }
{
    match y {
        Ok(Progress::Onward) => Ok(Ending::Holds),
        Ok(Progress::Failed { node }) => Ok(Ending::Fails { node: node }),
        Err(refusal) => Err(refusal),
    }
}

// The run over the paragraphs, for a well-formed state.
fn run_paragraphs(doc: &[u32], state: &[u32], work: &mut [u32]) -> Result<Ending, Refusal>
    requires { (read_of doc.now ≡ Readable) × (state_of (document_names (tree_of doc.now)) state.now ≡ Readable) × (run_work_words ≤ length work.old) }
    ensures { result ≡ (ending (run_document (tree_of doc.now) (said doc.now state.now))).finding }
{
    let mut table = [0u32; states::names::TABLE_WORDS];
    states::names::put_names(doc, state, &mut table);
    finding_of(evaluator_paragraphs::run_from(
        doc,
        state,
        &table,
        work,
        0,
        part(doc, word(doc, 0)),
        1,
    ))
}

// A readable document, with a work area that is large enough: 41, then the paragraphs.
fn run_state(doc: &[u32], state: &[u32], work: &mut [u32]) -> Result<Ending, Refusal>
    requires { (read_of doc.now ≡ Readable) × (run_work_words ≤ length work.old) }
    ensures { result ≡ (run_state (state_of (document_names (tree_of doc.now)) state.now) (tree_of doc.now) state.now).finding }
{
    states::first_ill_formed(doc, state)?;
    run_paragraphs(doc, state, work)
}

// Reading's findings, then 21, then the run.
fn run_read(doc: &[u32], state: &[u32], work: &mut [u32]) -> Result<Ending, Refusal>
    ensures { result ≡ (run_of doc.now state.now (length work.old)).finding }
{
    reader::read(doc)?;
    if work.len() < limits::RUN_WORK_WORDS {
        return Err(Refusal {
            number: findings::WORK_AREA,
            place: 0,
        });
    }
    run_state(doc, state, work)
}

// The run of a document over a state. The work area is zeros afterwards.
pub fn run(doc: &[u32], state: &[u32], work: &mut [u32]) -> Result<Ending, Refusal>
    ensures { RunCall doc.now state.now work.old work.new result }
{
    let found = run_read(doc, state, work);
    clear(work);
    found
}
