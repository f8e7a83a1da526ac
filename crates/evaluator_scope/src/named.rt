// The names of a document with the values that a state gives them, and their blocks in the work area.
ghost use Rattle.std.specs.Prelude.{◌≡◌, true, ◌+◌, ◌-◌, ◌≤◌, ◌<◌, ◌^◌, length, drop};
ghost use Rattle.values.specs.Value.{Value};
ghost use Rattle.reader_rules.specs.Decode.{tree_of};
ghost use Rattle.states_rules.specs.Names.{document_names, names_as};
ghost use Rattle.evaluator_rules.specs.Run.{run_work_words};
ghost use Rattle.evaluator_rules.specs.Environment.{valued, bind};
ghost use Rattle.evaluator_rules.specs.Paragraphs.{bind_givens};
ghost use Rattle.evaluator_operations.specs.Worked.{Holds};
ghost use Rattle.evaluator_scope.specs.Named.{Among, Declares, Stated, Extends, said};

use crate::{put_entry, put_name};
use codes::limits;
use layout::part;
use states::places::place_of;
use values::held::{Held, hold, over};
use values_forms::givens::given_set;
use words::word;

// The value of a name: the words of its entry, or the set of a given's elements.
pub fn held_name(doc: &[u32], state: &[u32], table: &[u32], name: usize) -> Held
    requires { Stated doc.now state.now table.now × Among name (document_names (tree_of doc.now)) }
    ensures { Holds result (said doc.now state.now name) }
{
    let k = place_of(doc, name);
    let w = part(state, k);
    let g = word(table, 2 * k);
    if g == 0 {
        return hold(w);
    }
    given_set(g as u32, word(w, 0))
}

// The same value; one of over 64 words is held as such.
pub fn bounded(v: Held) -> Held
    ensures { (result.len ≤ 65) × ((x : Value) → Holds v x → result ≡ v) }
{
    let len = v.len;
    if limits::VALUE < len {
        return over();
    }
    v
}

// A name in block b: its entry in the state, or the set of a given's elements.
fn put_stated(doc: &[u32], state: &[u32], table: &[u32], work: &mut [u32], b: usize, name: usize)
    requires { Stated doc.now state.now table.now × Among name (document_names (tree_of doc.now)) × (b < 64) × (run_work_words ≤ length work.old) × (name < 2 ^ 32) }
    ensures { Extends state.now work.old work.new b (b + 1) (bind name (valued (said doc.now state.now name))) }
{
    let k = place_of(doc, name);
    if word(table, 2 * k) == 0 {
        put_entry(work, b, name, word(state, 2 * k - 1), word(state, 2 * k));
        return;
    }
    put_name(work, b, name, held_name(doc, state, table, name));
}

// The identifiers among the words w from j on, in blocks from b on. `true` stands for givens and others alike: Declares looks at identifiers only.
pub fn put_names(
    doc: &[u32],
    state: &[u32],
    table: &[u32],
    work: &mut [u32],
    b: usize,
    w: &[u32],
    j: usize,
)
    requires { Stated doc.now state.now table.now × Declares doc.now (names_as true (drop j w.now)) × (b + (length w.now - j) ≤ 64) × (run_work_words ≤ length work.old) × (length w.now ≤ 256) }
    ensures { Extends state.now work.old work.new b (b + (length w.now - j)) (bind_givens (drop j w.now) (said doc.now state.now)) }
{
    for i in j..w.len() {
        put_stated(doc, state, table, work, b + (i - j), word(w, i));
    }
}
