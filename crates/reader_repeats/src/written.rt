// What a node writes: identifiers and schema names.
ghost use Rattle.std.specs.Prelude.{◌≡◌, ◌<◌};
ghost use Rattle.reader_rules.specs.Repeats.{is_axiom_decl, globals, parameters, schemas, declared};
ghost use Rattle.reader_repeats.specs.Parents.{places, Parents};

use codes::kinds;
use layout::part;
use reader_nodes::kinds::is_between;
use reader_nodes::nodes::kind_at;
use words::{from, span, word};

// Node k is a Decl line of an Axiom's own Text.
#[tactic(auto, using(reader_rules::proofs::Parents::parent_most), unfolding(reader_rules::specs::Repeats::is_axiom_decl))]
fn is_axiom_decl(doc: &[u32], up: &[u32], k: usize) -> bool
    requires { Parents doc.now up.now × (k < places) }
    ensures { result ≡ is_axiom_decl doc.now k }
{
    kind_at(doc, k) == kinds::DECL && kind_at(doc, word(up, word(up, k))) == kinds::AXIOM
}

// The identifiers that node k adds to those of Given, Axiom Decl and Abbreviation.
#[tactic(auto, unfolding(reader_rules::specs::Repeats::globals))]
pub fn globals_at<'a>(doc: &'a [u32], up: &[u32], k: usize) -> &'a [u32]
    requires { Parents doc.now up.now × (k < places) }
    ensures { result.now ≡ globals doc.now k }
{
    let w = part(doc, k);
    match kind_at(doc, k) {
        kinds::GIVEN => from(w, 1),
        kinds::ABBREVIATION => span(w, 1, 1),
        _ => {
            if is_axiom_decl(doc, up, k) {
                from(w, 2)
            } else {
                &[]
            }
        }
    }
}

// The name of a Schema.
#[tactic(auto, unfolding(reader_rules::specs::Repeats::schemas))]
pub fn schemas_at(doc: &[u32], k: usize) -> &[u32]
    ensures { result.now ≡ schemas doc.now k }
{
    if kind_at(doc, k) == kinds::SCHEMA {
        span(part(doc, k), 1, 1)
    } else {
        &[]
    }
}

// The parameters of a Schema or Abbreviation.
#[tactic(auto, unfolding(reader_rules::specs::Repeats::parameters))]
pub fn parameters_at(doc: &[u32], k: usize) -> &[u32]
    ensures { result.now ≡ parameters doc.now k }
{
    let w = part(doc, k);
    if is_between(kinds::SCHEMA, kind_at(doc, k), kinds::ABBREVIATION) {
        span(w, 3, word(w, 2))
    } else {
        &[]
    }
}

// The identifiers of a Decl.
pub fn declared_at(doc: &[u32], k: usize) -> &[u32]
    ensures { result.now ≡ declared doc.now k }
{
    from(part(doc, k), 2)
}
