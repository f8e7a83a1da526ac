// The paragraphs of a run, in Document order. n is the number of blocks in the work area: the global names so far.
#![tactic(auto)]

ghost use Rattle.std.specs.Prelude.{◌≡◌, true, false, ◌+◌, ◌-◌, ◌≤◌, ◌<◌, length, get_or, drop};
ghost use Rattle.layout.specs.Layout.{count, part};
ghost use Rattle.reader_rules.specs.Kinds.{expressions, predicates, texts, paragraphs};
ghost use Rattle.reader_rules.specs.Nodes.{kind_at};
ghost use Rattle.reader_rules.specs.Promise.{At};
ghost use Rattle.reader_rules.specs.Decode.{expr_at, pred_at, lines_from, paragraph_at, paragraphs_from};
ghost use Rattle.reader_rules.specs.Limited.{declared_count, globals_of, global_count};
ghost use Rattle.states_rules.specs.Names.{names_as, line_names, paragraph_names, names_of};
ghost use Rattle.states_rules.specs.States.{State};
ghost use Rattle.evaluator_rules.specs.Environment.{Environment};
ghost use Rattle.evaluator_rules.specs.Rules.{test};
ghost use Rattle.evaluator_rules.specs.Paragraphs.{bind_givens, test_names, test_lines, run_paragraph, run_paragraphs};
ghost use Rattle.evaluator_operations.specs.Worked.{Told};
ghost use Rattle.evaluator_scope.specs.Blocks.{Scoped, Leaves};
ghost use Rattle.evaluator_scope.specs.Named.{Declares, Stated, Extends, said};
ghost use Rattle.evaluator_nodes.specs.Ready.{Ready};
ghost use Rattle.evaluator_paragraphs.specs.Paragraphs.{demanded, Roomy, bind_lines, Stepped, TestsTold, Steps};

use codes::{findings, kinds};
use evaluator_nodes::nodes::{expr, pred, tests};
use evaluator_operations::worked::refusal;
use evaluator_scope::named::{bounded, held_name, put_names};
use evaluator_scope::{put_generic, put_name};
use layout::part;
use reader_rules::Refusal;
use states::names::text_count;
use words::word;

// What a paragraph, or a test in one, leaves: the run goes on, or it fails at a node.
#[derive(Clone, Copy, PartialEq, Eq)]
pub enum Progress {
    Onward,
    Failed { node: u32 },
}

// The identifiers of Decl v, with the words x, from j on: the value of each is tested against the Decl's expression. `true` stands for givens and others alike.
fn test_names(
    doc: &[u32],
    state: &[u32],
    table: &[u32],
    work: &mut [u32],
    n: usize,
    v: usize,
    x: &[u32],
    j: usize,
) -> Result<Progress, Refusal>
    requires { Stated doc.now state.now table.now × Ready doc.now work.old expressions n (get_or x.now 1 0) × Declares doc.now (names_as true (drop j x.now)) × (v ≤ 1024) × (length x.now ≤ 256) }
    ensures { Leaves n work.old work.new ((scope : Environment) → Scoped state.now work.old n scope → TestsTold (bind_givens (drop j x.now) (said doc.now state.now)) result (test_names v (test (expr_at doc.now (get_or x.now 1 0)) scope) (drop j x.now) (said doc.now state.now))) }
{
    for i in j..x.len() {
        let y = tests(
            doc,
            state,
            work,
            n,
            word(x, 1),
            held_name(doc, state, table, word(x, i)),
        )?;
        if !y {
            return Ok(Progress::Failed { node: v as u32 });
        }
    }
    Ok(Progress::Onward)
}

// The lines of Text t, with the words u, from i on: each Decl tests its identifiers; an Include stops the run.
fn test_lines(
    doc: &[u32],
    state: &[u32],
    table: &[u32],
    work: &mut [u32],
    n: usize,
    t: usize,
    u: &[u32],
    i: usize,
) -> Result<Progress, Refusal>
    requires { Stated doc.now state.now table.now × At doc.now texts t × (u.now ≡ part doc.now t) × (2 ≤ i) × (i ≤ 256) × Roomy work.old n 0 × Declares doc.now (line_names (lines_from doc.now t i (length u.now - i))) }
    ensures { Leaves n work.old work.new ((scope : Environment) → Scoped state.now work.old n scope → TestsTold (bind_lines (lines_from doc.now t i (length u.now - i)) (said doc.now state.now)) result (test_lines (lines_from doc.now t i (length u.now - i)) (said doc.now state.now) scope)) }
{
    for j in i..u.len() {
        let v = word(u, j);
        let x = part(doc, v);
        if word(x, 0) == kinds::INCLUDE {
            return Err(refusal(findings::NOT_RUN, v));
        }
        let y = test_names(doc, state, table, work, n, v, x, 2)?;
        match y {
            Progress::Onward => {}
            Progress::Failed { node } => return Ok(y),
        }
    }
    Ok(Progress::Onward)
}

// The identifiers of the lines of Text t from i on, in blocks from b on.
fn put_lines(
    doc: &[u32],
    state: &[u32],
    table: &[u32],
    work: &mut [u32],
    b: usize,
    t: usize,
    u: &[u32],
    i: usize,
)
    requires { Stated doc.now state.now table.now × At doc.now texts t × (u.now ≡ part doc.now t) × (2 ≤ i) × (i ≤ 256) × Roomy work.old b (declared_count (lines_from doc.now t i (length u.now - i))) × Declares doc.now (line_names (lines_from doc.now t i (length u.now - i))) }
    ensures { Extends state.now work.old work.new b (b + declared_count (lines_from doc.now t i (length u.now - i))) (bind_lines (lines_from doc.now t i (length u.now - i)) (said doc.now state.now)) }
{
    let mut top = b;
    for j in i..u.len() {
        let x = part(doc, word(u, j));
        if word(x, 0) != kinds::INCLUDE {
            put_names(doc, state, table, work, top, x, 2);
            top += x.len() - 2;
        }
    }
}

// 2 Given.
fn given(
    doc: &[u32],
    state: &[u32],
    table: &[u32],
    work: &mut [u32],
    n: usize,
    k: usize,
    w: &[u32],
) -> Result<Progress, Refusal>
    requires { Stated doc.now state.now table.now × At doc.now paragraphs k × (kind_at doc.now k ≡ 2) × Roomy work.old n (globals_of (paragraph_at doc.now k)) × Declares doc.now (paragraph_names (paragraph_at doc.now k)) × (w.now ≡ part doc.now k) }
    ensures { Steps state.now work.old work.new n (n + globals_of (paragraph_at doc.now k)) result (run_paragraph (paragraph_at doc.now k) (said doc.now state.now)) }
{
    put_names(doc, state, table, work, n, w, 1);
    Ok(Progress::Onward)
}

// A predicate that must be true, at node p; it fails at node k.
fn demand(
    doc: &[u32],
    state: &[u32],
    work: &mut [u32],
    n: usize,
    k: usize,
    p: usize,
) -> Result<Progress, Refusal>
    requires { Ready doc.now work.old predicates n p × (k ≤ 1024) }
    ensures { Steps state.now work.old work.new n n result (demanded k (pred_at doc.now p)) }
{
    let y = pred(doc, state, work, n, p)?;
    if y {
        return Ok(Progress::Onward);
    }
    Ok(Progress::Failed { node: k as u32 })
}

// 3 Axiom: the tests of its lines, then its names, then its predicate.
fn axiom(
    doc: &[u32],
    state: &[u32],
    table: &[u32],
    work: &mut [u32],
    n: usize,
    k: usize,
    w: &[u32],
) -> Result<Progress, Refusal>
    requires { Stated doc.now state.now table.now × At doc.now paragraphs k × (kind_at doc.now k ≡ 3) × Roomy work.old n (globals_of (paragraph_at doc.now k)) × Declares doc.now (paragraph_names (paragraph_at doc.now k)) × (w.now ≡ part doc.now k) }
    ensures { Steps state.now work.old work.new n (n + globals_of (paragraph_at doc.now k)) result (run_paragraph (paragraph_at doc.now k) (said doc.now state.now)) }
{
    let t = word(w, 1);
    let u = part(doc, t);
    let y = test_lines(doc, state, table, work, n, t, u, 2)?;
    match y {
        Progress::Onward => {
            put_lines(doc, state, table, work, n, t, u, 2);
            demand(doc, state, work, n + text_count(doc, t), k, word(u, 1))
        }
        Progress::Failed { node } => Ok(y),
    }
}

// 5 Abbreviation: without parameters its value is kept.
fn abbreviation(
    doc: &[u32],
    state: &[u32],
    work: &mut [u32],
    n: usize,
    k: usize,
    w: &[u32],
) -> Result<Progress, Refusal>
    requires { At doc.now paragraphs k × (kind_at doc.now k ≡ 5) × Roomy work.old n 1 × (w.now ≡ part doc.now k) }
    ensures { (s : State) → Steps state.now work.old work.new n (n + 1) result (run_paragraph (paragraph_at doc.now k) s) }
{
    if word(w, 2) == 0 {
        let y = expr(doc, state, work, n, word(w, 3))?;
        put_name(work, n, word(w, 1), bounded(y));
        return Ok(Progress::Onward);
    }
    put_generic(work, n, word(w, 1));
    Ok(Progress::Onward)
}

// A paragraph.
fn paragraph(
    doc: &[u32],
    state: &[u32],
    table: &[u32],
    work: &mut [u32],
    n: usize,
    k: usize,
) -> Result<Progress, Refusal>
    requires { Stated doc.now state.now table.now × At doc.now paragraphs k × Roomy work.old n (globals_of (paragraph_at doc.now k)) × Declares doc.now (paragraph_names (paragraph_at doc.now k)) }
    ensures { Steps state.now work.old work.new n (n + globals_of (paragraph_at doc.now k)) result (run_paragraph (paragraph_at doc.now k) (said doc.now state.now)) }
{
    let w = part(doc, k);
    let q = word(w, 0);
    match q {
        kinds::GIVEN => given(doc, state, table, work, n, k, w),
        kinds::AXIOM => axiom(doc, state, table, work, n, k, w),
        kinds::ABBREVIATION => abbreviation(doc, state, work, n, k, w),
        kinds::CONSTRAINT => demand(doc, state, work, n, k, word(w, 1)),
        _ => Ok(Progress::Onward),
    }
}

// The number of global names of paragraph k.
fn global_count(doc: &[u32], k: usize) -> usize
    requires { At doc.now paragraphs k }
    ensures { result ≡ globals_of (paragraph_at doc.now k) }
{
    let w = part(doc, k);
    let q = word(w, 0);
    match q {
        kinds::GIVEN => w.len() - 1,
        kinds::AXIOM => text_count(doc, word(w, 1)),
        kinds::ABBREVIATION => 1,
        _ => 0,
    }
}

// The paragraphs of a document with the words w, from i on.
pub fn run_from(
    doc: &[u32],
    state: &[u32],
    table: &[u32],
    work: &mut [u32],
    n: usize,
    w: &[u32],
    i: usize,
) -> Result<Progress, Refusal>
    requires { Stated doc.now state.now table.now × (w.now ≡ part doc.now (count doc.now)) × (1 ≤ i) × (i ≤ 256) × Roomy work.old n (global_count (paragraphs_from doc.now (count doc.now) i (length w.now - i))) × Declares doc.now (names_of (paragraphs_from doc.now (count doc.now) i (length w.now - i))) }
    ensures { (scope : Environment) → Scoped state.now work.old n scope → Told (Stepped (λ s. Unit {0})) result (run_paragraphs (paragraphs_from doc.now (count doc.now) i (length w.now - i)) (said doc.now state.now) scope) }
{
    let mut b = n;
    for j in i..w.len() {
        let k = word(w, j);
        let y = paragraph(doc, state, table, work, b, k)?;
        match y {
            Progress::Onward => b += global_count(doc, k),
            Progress::Failed { node } => return Ok(y),
        }
    }
    Ok(Progress::Onward)
}
