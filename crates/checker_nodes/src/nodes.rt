// The typing rules: functions over nodes that call each other in a cycle, the node number falling. The solver's store and the pool of type words are
// in a; d is the dictionary's area, w the work area with the scope's rows at its beginning. A function over a kind's node takes its words p.
// Document 01, forms: "Expressions hold texts, texts hold predicates, and predicates hold expressions again".
ghost use Rattle.std.specs.Prelude.{◌≡◌, ℕ, ◌+◌, ◌-◌, ◌≤◌, ◌<◌, length, get_or};
ghost use Rattle.reader_rules.specs.Kinds.{expressions, predicates, texts, lines, includes};
ghost use Rattle.reader_rules.specs.Nodes.{kind_at};
ghost use Rattle.reader_rules.specs.Promise.{At, Lower};
ghost use Rattle.reader_rules.specs.Tree.{end};
ghost use Rattle.reader_rules.specs.Decode.{expr_at, pred_at, text_at, line_at, include_at, exprs_from, lines_from};
ghost use Rattle.checker_contracts.specs.Expressions.{ExprAsk, ExprDone, ExprsAsk, ExprsDone};
ghost use Rattle.checker_contracts.specs.Predicates.{PredAsk, PredDone};
ghost use Rattle.checker_contracts.specs.Texts.{TextAsk, TextDone, LinesAsk, LinesDone};
ghost use Rattle.checker_contracts.specs.Includes.{IncludeAsk, IncludeDone, BringsAsk, BringsDone, ActualsAsk, ActualsDone};
ghost use Rattle.checker_closing.specs.Nodes.{Node};

use checker_closing::actual::actual;
use checker_closing::declared::declared;
use checker_closing::included::{brought, included};
use checker_closing::includes::{FIRST_ACTUAL, named, schema_of};
use checker_closing::relation::relation;
use checker_closing::results::{
    Lined, Verdict, Visit, found, lined_at, ruled_at, unlined, unvisited, verdict_at, visit_at,
};
use checker_kinds::building::{
    comprehension_rule, integers_rule, number_rule, power_rule, product_rule, set_rule, tuple_rule,
};
use checker_kinds::equations::{apply_rule, arithmetic_rule, select_rule};
use checker_lookup::bindings::schema_set;
use checker_lookup::references::ref_rule;
use checker_lookup::thetas::theta_rule;
use checker_signatures::scopes::push;
use checker_signatures::tables::TABLE;
use codes::{findings, kinds, limits};
use layout::part;
use types_cells::area::FIRST_RUN;
use types_instances::{restore, save, wipe};
use words::{store, word};

// The operands from word i of node k's part on, one after another: their cells go to the words of `parts` from j on.
#[cycle(actuals_apply_arith_brings_compr_conn_decl_expr_group_incl_include_line_lines_opers_power_pred_quant_refer_rel_select_sset_text)]
fn opers(
    doc: &[u32],
    a: &mut [u32],
    d: &[u32],
    w: &mut [u32],
    rows: usize,
    n: usize,
    top: usize,
    at: usize,
    free: usize,
    k: usize,
    p: &[u32],
    i: usize,
    parts: &mut [u32],
    j: usize,
) -> Visit
    requires { Node doc.now p.now expressions k × (i ≤ 256) × ((q : ℕ) → i ≤ q → q < length p.now → Lower doc.now k expressions (get_or p.now q 0)) × ExprsAsk a.old d.now w.old rows n top at free (exprs_from doc.now k i (length p.now - i)) parts.old j }
    ensures { ExprsDone a.old a.new d.now w.old w.new rows n top at free (exprs_from doc.now k i (length p.now - i)) parts.old parts.new j result.number result.place result.cells result.top result.at }
{
    if p.len() <= i {
        return visit_at(0, k, 0, n, top, at);
    }
    let x = expr(doc, a, d, w, rows, n, top, at, free, word(p, i));
    if x.number != 0 {
        return x;
    }
    store(parts, j, x.cell as u32);
    opers(
        doc,
        a,
        d,
        w,
        rows,
        x.cells,
        x.top,
        x.at,
        free,
        k,
        p,
        i + 1,
        parts,
        j + 1,
    )
}

// 30 Ref: actuals before its own findings.
#[cycle(actuals_apply_arith_brings_compr_conn_decl_expr_group_incl_include_line_lines_opers_power_pred_quant_refer_rel_select_sset_text)]
fn refer(
    doc: &[u32],
    a: &mut [u32],
    d: &[u32],
    w: &mut [u32],
    rows: usize,
    n: usize,
    top: usize,
    at: usize,
    free: usize,
    k: usize,
    p: &[u32],
) -> Visit
    requires { Node doc.now p.now expressions k × (kind_at doc.now k ≡ 30) × ExprAsk a.old d.now w.old rows n top at free (expr_at doc.now k) }
    ensures { ExprDone a.old a.new d.now w.old w.new rows n top at free (expr_at doc.now k) result.number result.place result.cell result.cells result.top result.at }
{
    let mut parts = [0u32; limits::PARTS];
    let x = opers(doc, a, d, w, rows, n, top, at, free, k, p, 2, &mut parts, 0);
    if x.number != 0 {
        return x;
    }
    let r = ref_rule(
        a,
        d,
        w,
        x.cells,
        x.top,
        rows,
        word(p, 1),
        &parts,
        p.len() - 2,
    );
    ruled_at(r, k, x.at)
}

// 33 Set, 34 Tuple, 35 Product.
#[cycle(actuals_apply_arith_brings_compr_conn_decl_expr_group_incl_include_line_lines_opers_power_pred_quant_refer_rel_select_sset_text)]
fn group(
    doc: &[u32],
    a: &mut [u32],
    d: &[u32],
    w: &mut [u32],
    rows: usize,
    n: usize,
    top: usize,
    at: usize,
    free: usize,
    k: usize,
    p: &[u32],
) -> Visit
    requires { Node doc.now p.now expressions k × (33 ≤ kind_at doc.now k) × (kind_at doc.now k ≤ 35) × ExprAsk a.old d.now w.old rows n top at free (expr_at doc.now k) }
    ensures { ExprDone a.old a.new d.now w.old w.new rows n top at free (expr_at doc.now k) result.number result.place result.cell result.cells result.top result.at }
{
    let mut parts = [0u32; limits::PARTS];
    let x = opers(doc, a, d, w, rows, n, top, at, free, k, p, 1, &mut parts, 0);
    if x.number != 0 {
        return x;
    }
    let q = word(p, 0);
    let m = p.len() - 1;
    if q == kinds::SET {
        let r = set_rule(a, d, x.cells, x.top, &parts, m);
        return ruled_at(r, k, x.at);
    }
    if q == kinds::TUPLE {
        let r = tuple_rule(a, x.cells, x.top, &parts, m);
        return visit_at(0, k, r.cell, r.cells, r.top, x.at);
    }
    let r = product_rule(a, d, x.cells, x.top, &parts, m);
    ruled_at(r, k, x.at)
}

// 36 Power.
#[cycle(actuals_apply_arith_brings_compr_conn_decl_expr_group_incl_include_line_lines_opers_power_pred_quant_refer_rel_select_sset_text)]
fn power(
    doc: &[u32],
    a: &mut [u32],
    d: &[u32],
    w: &mut [u32],
    rows: usize,
    n: usize,
    top: usize,
    at: usize,
    free: usize,
    k: usize,
    p: &[u32],
) -> Visit
    requires { Node doc.now p.now expressions k × (kind_at doc.now k ≡ 36) × ExprAsk a.old d.now w.old rows n top at free (expr_at doc.now k) }
    ensures { ExprDone a.old a.new d.now w.old w.new rows n top at free (expr_at doc.now k) result.number result.place result.cell result.cells result.top result.at }
{
    let x = expr(doc, a, d, w, rows, n, top, at, free, word(p, 1));
    if x.number != 0 {
        return x;
    }
    let r = power_rule(a, d, x.cells, x.top, x.cell);
    ruled_at(r, k, x.at)
}

// 38 Select.
#[cycle(actuals_apply_arith_brings_compr_conn_decl_expr_group_incl_include_line_lines_opers_power_pred_quant_refer_rel_select_sset_text)]
fn select(
    doc: &[u32],
    a: &mut [u32],
    d: &[u32],
    w: &mut [u32],
    rows: usize,
    n: usize,
    top: usize,
    at: usize,
    free: usize,
    k: usize,
    p: &[u32],
) -> Visit
    requires { Node doc.now p.now expressions k × (kind_at doc.now k ≡ 38) × ExprAsk a.old d.now w.old rows n top at free (expr_at doc.now k) }
    ensures { ExprDone a.old a.new d.now w.old w.new rows n top at free (expr_at doc.now k) result.number result.place result.cell result.cells result.top result.at }
{
    let x = expr(doc, a, d, w, rows, n, top, at, free, word(p, 1));
    if x.number != 0 {
        return x;
    }
    let r = select_rule(a, d, x.cells, x.top, x.cell, word(p, 2));
    ruled_at(r, k, x.at)
}

// 37 Apply.
#[cycle(actuals_apply_arith_brings_compr_conn_decl_expr_group_incl_include_line_lines_opers_power_pred_quant_refer_rel_select_sset_text)]
fn apply(
    doc: &[u32],
    a: &mut [u32],
    d: &[u32],
    w: &mut [u32],
    rows: usize,
    n: usize,
    top: usize,
    at: usize,
    free: usize,
    k: usize,
    p: &[u32],
) -> Visit
    requires { Node doc.now p.now expressions k × (kind_at doc.now k ≡ 37) × ExprAsk a.old d.now w.old rows n top at free (expr_at doc.now k) }
    ensures { ExprDone a.old a.new d.now w.old w.new rows n top at free (expr_at doc.now k) result.number result.place result.cell result.cells result.top result.at }
{
    let x = expr(doc, a, d, w, rows, n, top, at, free, word(p, 1));
    if x.number != 0 {
        return x;
    }
    let y = expr(doc, a, d, w, rows, x.cells, x.top, x.at, free, word(p, 2));
    if y.number != 0 {
        return y;
    }
    let r = apply_rule(a, d, y.cells, y.top, x.cell, y.cell);
    ruled_at(r, k, y.at)
}

// 41 to 45: arithmetic.
#[cycle(actuals_apply_arith_brings_compr_conn_decl_expr_group_incl_include_line_lines_opers_power_pred_quant_refer_rel_select_sset_text)]
fn arith(
    doc: &[u32],
    a: &mut [u32],
    d: &[u32],
    w: &mut [u32],
    rows: usize,
    n: usize,
    top: usize,
    at: usize,
    free: usize,
    k: usize,
    p: &[u32],
) -> Visit
    requires { Node doc.now p.now expressions k × (41 ≤ kind_at doc.now k) × (kind_at doc.now k ≤ 45) × ExprAsk a.old d.now w.old rows n top at free (expr_at doc.now k) }
    ensures { ExprDone a.old a.new d.now w.old w.new rows n top at free (expr_at doc.now k) result.number result.place result.cell result.cells result.top result.at }
{
    let x = expr(doc, a, d, w, rows, n, top, at, free, word(p, 1));
    if x.number != 0 {
        return x;
    }
    let y = expr(doc, a, d, w, rows, x.cells, x.top, x.at, free, word(p, 2));
    if y.number != 0 {
        return y;
    }
    let r = arithmetic_rule(a, d, y.cells, y.top, x.cell, y.cell);
    ruled_at(r, k, y.at)
}

// 46 Comprehension: the piece around waits in the work area while its Text is visited.
#[cycle(actuals_apply_arith_brings_compr_conn_decl_expr_group_incl_include_line_lines_opers_power_pred_quant_refer_rel_select_sset_text)]
fn compr(
    doc: &[u32],
    a: &mut [u32],
    d: &[u32],
    w: &mut [u32],
    rows: usize,
    n: usize,
    top: usize,
    at: usize,
    free: usize,
    k: usize,
    p: &[u32],
) -> Visit
    requires { Node doc.now p.now expressions k × (kind_at doc.now k ≡ 46) × ExprAsk a.old d.now w.old rows n top at free (expr_at doc.now k) }
    ensures { ExprDone a.old a.new d.now w.old w.new rows n top at free (expr_at doc.now k) result.number result.place result.cell result.cells result.top result.at }
{
    let e = save(a, n, top, w, free);
    let t = text(doc, a, d, w, rows, at, e, word(p, 1), false);
    if t.number != 0 {
        return unvisited(t.number, t.place);
    }
    restore(a, n, top, w, free);
    let x = expr(doc, a, d, w, rows + t.count, n, top, t.at, free, word(p, 2));
    if x.number != 0 {
        return x;
    }
    let r = comprehension_rule(a, x.cells, x.top, x.cell);
    visit_at(0, k, r.cell, r.cells, r.top, x.at)
}

// 40 SchemaSet: the piece around waits in the work area while its Include is visited.
#[cycle(actuals_apply_arith_brings_compr_conn_decl_expr_group_incl_include_line_lines_opers_power_pred_quant_refer_rel_select_sset_text)]
fn sset(
    doc: &[u32],
    a: &mut [u32],
    d: &[u32],
    w: &mut [u32],
    rows: usize,
    n: usize,
    top: usize,
    at: usize,
    free: usize,
    k: usize,
    p: &[u32],
) -> Visit
    requires { Node doc.now p.now expressions k × (kind_at doc.now k ≡ 40) × ExprAsk a.old d.now w.old rows n top at free (expr_at doc.now k) }
    ensures { ExprDone a.old a.new d.now w.old w.new rows n top at free (expr_at doc.now k) result.number result.place result.cell result.cells result.top result.at }
{
    let e = save(a, n, top, w, free);
    let i = brings(doc, a, d, w, rows, at, e, word(p, 1));
    if i.number != 0 {
        return unvisited(i.number, i.place);
    }
    restore(a, n, top, w, free);
    let g = schema_set(a, d, w, e, i.count, n, top);
    visit_at(0, k, g.cell, g.cells, g.top, i.at)
}

// An expression.
#[cycle(actuals_apply_arith_brings_compr_conn_decl_expr_group_incl_include_line_lines_opers_power_pred_quant_refer_rel_select_sset_text)]
pub fn expr(
    doc: &[u32],
    a: &mut [u32],
    d: &[u32],
    w: &mut [u32],
    rows: usize,
    n: usize,
    top: usize,
    at: usize,
    free: usize,
    k: usize,
) -> Visit
    requires { At doc.now expressions k × ExprAsk a.old d.now w.old rows n top at free (expr_at doc.now k) }
    ensures { ExprDone a.old a.new d.now w.old w.new rows n top at free (expr_at doc.now k) result.number result.place result.cell result.cells result.top result.at }
{
    let p = part(doc, k);
    let q = word(p, 0);
    match q {
        kinds::REF => refer(doc, a, d, w, rows, n, top, at, free, k, p),
        kinds::NUMBER => {
            let r = number_rule(a, n, top);
            visit_at(0, k, r.cell, r.cells, r.top, at)
        }
        kinds::INTEGERS => {
            let r = integers_rule(a, n, top);
            visit_at(0, k, r.cell, r.cells, r.top, at)
        }
        kinds::SET..=kinds::PRODUCT => group(doc, a, d, w, rows, n, top, at, free, k, p),
        kinds::POWER => power(doc, a, d, w, rows, n, top, at, free, k, p),
        kinds::APPLY => apply(doc, a, d, w, rows, n, top, at, free, k, p),
        kinds::SELECT => select(doc, a, d, w, rows, n, top, at, free, k, p),
        kinds::THETA => {
            let r = theta_rule(a, d, w, n, top, rows, free, word(p, 1), word(p, 2));
            ruled_at(r, k, at)
        }
        kinds::SCHEMA_SET => sset(doc, a, d, w, rows, n, top, at, free, k, p),
        kinds::PLUS..=kinds::MOD => arith(doc, a, d, w, rows, n, top, at, free, k, p),
        _ => compr(doc, a, d, w, rows, n, top, at, free, k, p),
    }
}

// 21 to 23: the two sides are a closed piece.
#[cycle(actuals_apply_arith_brings_compr_conn_decl_expr_group_incl_include_line_lines_opers_power_pred_quant_refer_rel_select_sset_text)]
fn rel(
    doc: &[u32],
    a: &mut [u32],
    d: &[u32],
    w: &mut [u32],
    rows: usize,
    at: usize,
    free: usize,
    k: usize,
    p: &[u32],
) -> Verdict
    requires { Node doc.now p.now predicates k × (21 ≤ kind_at doc.now k) × (kind_at doc.now k ≤ 23) × PredAsk a.old d.now w.old rows at free (pred_at doc.now k) }
    ensures { PredDone a.old a.new d.now w.old w.new rows at free (pred_at doc.now k) result.number result.place }
{
    let x = expr(doc, a, d, w, rows, 0, FIRST_RUN, at, free, word(p, 1));
    if x.number != 0 {
        return found(x.number, x.place);
    }
    let y = expr(doc, a, d, w, rows, x.cells, x.top, x.at, free, word(p, 2));
    relation(a, d, at, k, word(p, 0), x.cell, y)
}

// 25 to 27: and, or, implies.
#[cycle(actuals_apply_arith_brings_compr_conn_decl_expr_group_incl_include_line_lines_opers_power_pred_quant_refer_rel_select_sset_text)]
fn conn(
    doc: &[u32],
    a: &mut [u32],
    d: &[u32],
    w: &mut [u32],
    rows: usize,
    at: usize,
    free: usize,
    k: usize,
    p: &[u32],
) -> Verdict
    requires { Node doc.now p.now predicates k × (25 ≤ kind_at doc.now k) × (kind_at doc.now k ≤ 27) × PredAsk a.old d.now w.old rows at free (pred_at doc.now k) }
    ensures { PredDone a.old a.new d.now w.old w.new rows at free (pred_at doc.now k) result.number result.place }
{
    let x = pred(doc, a, d, w, rows, at, free, word(p, 1));
    if x.number != 0 {
        return x;
    }
    pred(doc, a, d, w, rows, at, free, word(p, 2))
}

// 28 forall, 29 exists.
#[cycle(actuals_apply_arith_brings_compr_conn_decl_expr_group_incl_include_line_lines_opers_power_pred_quant_refer_rel_select_sset_text)]
fn quant(
    doc: &[u32],
    a: &mut [u32],
    d: &[u32],
    w: &mut [u32],
    rows: usize,
    at: usize,
    free: usize,
    k: usize,
    p: &[u32],
) -> Verdict
    requires { Node doc.now p.now predicates k × (28 ≤ kind_at doc.now k) × (kind_at doc.now k ≤ 29) × PredAsk a.old d.now w.old rows at free (pred_at doc.now k) }
    ensures { PredDone a.old a.new d.now w.old w.new rows at free (pred_at doc.now k) result.number result.place }
{
    let t = text(doc, a, d, w, rows, at, free, word(p, 1), false);
    if t.number != 0 {
        return found(t.number, t.place);
    }
    let x = pred(doc, a, d, w, rows + t.count, t.at, free, word(p, 2));
    if x.number != 0 {
        return x;
    }
    wipe(a, at, t.at);
    x
}

// A predicate, between pieces.
#[cycle(actuals_apply_arith_brings_compr_conn_decl_expr_group_incl_include_line_lines_opers_power_pred_quant_refer_rel_select_sset_text)]
pub fn pred(
    doc: &[u32],
    a: &mut [u32],
    d: &[u32],
    w: &mut [u32],
    rows: usize,
    at: usize,
    free: usize,
    k: usize,
) -> Verdict
    requires { At doc.now predicates k × PredAsk a.old d.now w.old rows at free (pred_at doc.now k) }
    ensures { PredDone a.old a.new d.now w.old w.new rows at free (pred_at doc.now k) result.number result.place }
{
    let p = part(doc, k);
    let q = word(p, 0);
    match q {
        kinds::TRUE => verdict_at(0, k),
        kinds::EQUAL..=kinds::AT_MOST => rel(doc, a, d, w, rows, at, free, k, p),
        kinds::NOT => pred(doc, a, d, w, rows, at, free, word(p, 1)),
        kinds::AND..=kinds::IMPLIES => conn(doc, a, d, w, rows, at, free, k, p),
        _ => quant(doc, a, d, w, rows, at, free, k, p),
    }
}

// A Text: its lines, then its predicate. The signature is a table at `free`, and its rows are pushed on the scope.
#[cycle(actuals_apply_arith_brings_compr_conn_decl_expr_group_incl_include_line_lines_opers_power_pred_quant_refer_rel_select_sset_text)]
pub fn text(
    doc: &[u32],
    a: &mut [u32],
    d: &[u32],
    w: &mut [u32],
    rows: usize,
    at: usize,
    free: usize,
    k: usize,
    global: bool,
) -> Lined
    requires { At doc.now texts k × TextAsk a.old d.now w.old rows at free (text_at doc.now k) }
    ensures { TextDone a.old a.new d.now w.old w.new rows at free (text_at doc.now k) global result.number result.place result.count result.at }
{
    let p = part(doc, k);
    let r = lines(
        doc,
        a,
        d,
        w,
        rows,
        free,
        0,
        at,
        free + TABLE,
        k,
        p,
        2,
        global,
    );
    if r.number != 0 {
        return r;
    }
    push(w, 0, rows, free, r.count);
    let x = pred(doc, a, d, w, rows + r.count, r.at, free + TABLE, word(p, 1));
    if x.number != 0 {
        return unlined(x.number, x.place);
    }
    r
}

// The lines from word i of the Text's part on. The signature of those before is the table of m rows at base.
#[cycle(actuals_apply_arith_brings_compr_conn_decl_expr_group_incl_include_line_lines_opers_power_pred_quant_refer_rel_select_sset_text)]
fn lines(
    doc: &[u32],
    a: &mut [u32],
    d: &[u32],
    w: &mut [u32],
    rows: usize,
    base: usize,
    m: usize,
    at: usize,
    free: usize,
    k: usize,
    p: &[u32],
    i: usize,
    global: bool,
) -> Lined
    requires { Node doc.now p.now texts k × (i ≤ 256) × ((q : ℕ) → i ≤ q → q < length p.now → Lower doc.now k lines (get_or p.now q 0)) × LinesAsk a.old d.now w.old rows base m at free (lines_from doc.now k i (length p.now - i)) }
    ensures { LinesDone a.old a.new d.now w.old w.new rows base m at free (lines_from doc.now k i (length p.now - i)) global result.number result.place result.count result.at }
{
    if p.len() <= i {
        return lined_at(0, k, m, at);
    }
    let r = line(doc, a, d, w, rows, base, m, at, free, word(p, i), global);
    if r.number != 0 {
        return r;
    }
    lines(
        doc,
        a,
        d,
        w,
        rows,
        base,
        r.count,
        r.at,
        free,
        k,
        p,
        i + 1,
        global,
    )
}

// A line.
#[cycle(actuals_apply_arith_brings_compr_conn_decl_expr_group_incl_include_line_lines_opers_power_pred_quant_refer_rel_select_sset_text)]
fn line(
    doc: &[u32],
    a: &mut [u32],
    d: &[u32],
    w: &mut [u32],
    rows: usize,
    base: usize,
    m: usize,
    at: usize,
    free: usize,
    k: usize,
    global: bool,
) -> Lined
    requires { At doc.now lines k × LinesAsk a.old d.now w.old rows base m at free (line_at doc.now k end) }
    ensures { LinesDone a.old a.new d.now w.old w.new rows base m at free (line_at doc.now k end) global result.number result.place result.count result.at }
{
    let p = part(doc, k);
    if word(p, 0) == kinds::DECL {
        return decl(doc, a, d, w, rows, base, m, at, free, k, p, global);
    }
    incl(doc, a, d, w, rows, base, m, at, free, k, p, global)
}

// 11 Decl: its set is a closed piece.
#[cycle(actuals_apply_arith_brings_compr_conn_decl_expr_group_incl_include_line_lines_opers_power_pred_quant_refer_rel_select_sset_text)]
fn decl(
    doc: &[u32],
    a: &mut [u32],
    d: &[u32],
    w: &mut [u32],
    rows: usize,
    base: usize,
    m: usize,
    at: usize,
    free: usize,
    k: usize,
    p: &[u32],
    global: bool,
) -> Lined
    requires { Node doc.now p.now lines k × (kind_at doc.now k ≡ 11) × LinesAsk a.old d.now w.old rows base m at free (line_at doc.now k end) }
    ensures { LinesDone a.old a.new d.now w.old w.new rows base m at free (line_at doc.now k end) global result.number result.place result.count result.at }
{
    let x = expr(doc, a, d, w, rows, 0, FIRST_RUN, at, free, word(p, 1));
    declared(a, d, w, base, m, p, at, free, k, global, x)
}

// 12 Include, as a line.
#[cycle(actuals_apply_arith_brings_compr_conn_decl_expr_group_incl_include_line_lines_opers_power_pred_quant_refer_rel_select_sset_text)]
fn incl(
    doc: &[u32],
    a: &mut [u32],
    d: &[u32],
    w: &mut [u32],
    rows: usize,
    base: usize,
    m: usize,
    at: usize,
    free: usize,
    k: usize,
    p: &[u32],
    global: bool,
) -> Lined
    requires { Node doc.now p.now lines k × (kind_at doc.now k ≡ 12) × LinesAsk a.old d.now w.old rows base m at free (line_at doc.now k end) }
    ensures { LinesDone a.old a.new d.now w.old w.new rows base m at free (line_at doc.now k end) global result.number result.place result.count result.at }
{
    let mut places = [0u32; limits::PARAMETERS];
    let i = include(doc, a, d, w, rows, at, free, k, p, &mut places);
    included(a, d, w, base, m, at, free, k, p, global, &places, i)
}

// 12 Include, as a schema expression: 38. What it brings is a table at free.
#[cycle(actuals_apply_arith_brings_compr_conn_decl_expr_group_incl_include_line_lines_opers_power_pred_quant_refer_rel_select_sset_text)]
pub fn brings(
    doc: &[u32],
    a: &mut [u32],
    d: &[u32],
    w: &mut [u32],
    rows: usize,
    at: usize,
    free: usize,
    k: usize,
) -> Lined
    requires { At doc.now includes k × BringsAsk a.old d.now w.old rows at free (include_at doc.now k) }
    ensures { BringsDone a.old a.new d.now w.old w.new rows at free (include_at doc.now k) result.number result.place result.count result.at }
{
    let p = part(doc, k);
    let mut places = [0u32; limits::PARAMETERS];
    let i = include(doc, a, d, w, rows, at, free, k, p, &mut places);
    brought(a, d, w, at, free, k, p, &places, i)
}

// An Include: name, count, actuals, stroke and renames. What it brings is a table at free, with the places of the recorded types.
#[cycle(actuals_apply_arith_brings_compr_conn_decl_expr_group_incl_include_line_lines_opers_power_pred_quant_refer_rel_select_sset_text)]
fn include(
    doc: &[u32],
    a: &mut [u32],
    d: &[u32],
    w: &mut [u32],
    rows: usize,
    at: usize,
    free: usize,
    k: usize,
    p: &[u32],
    places: &mut [u32],
) -> Lined
    requires { Node doc.now p.now includes k × IncludeAsk a.old d.now w.old rows at free (include_at doc.now k) places.old }
    ensures { IncludeDone a.old a.new d.now w.old w.new rows at free (include_at doc.now k) places.old places.new result.number result.place result.count result.at }
{
    match schema_of(d, w, p) {
        Ok(s) => {
            let x = actuals(doc, a, d, w, rows, at, free, k, p, 0, word(p, 3), places);
            named(a, d, w, free, k, p, s, x)
        }
        Err(number) => lined_at(number, k, 0, 0),
    }
}

// The actuals of an Include from number j of q on: each is a closed piece, and a power. The places of their element types go to `places`.
#[cycle(actuals_apply_arith_brings_compr_conn_decl_expr_group_incl_include_line_lines_opers_power_pred_quant_refer_rel_select_sset_text)]
fn actuals(
    doc: &[u32],
    a: &mut [u32],
    d: &[u32],
    w: &mut [u32],
    rows: usize,
    at: usize,
    free: usize,
    k: usize,
    p: &[u32],
    j: usize,
    q: usize,
    places: &mut [u32],
) -> Lined
    requires { Node doc.now p.now includes k × (q ≤ 4) × ((i : ℕ) → 4 ≤ i → i < q + 4 → Lower doc.now k expressions (get_or p.now i 0)) × ActualsAsk a.old d.now w.old rows at free k j (exprs_from doc.now k (j + 4) (q - j)) places.old }
    ensures { ActualsDone a.old a.new d.now w.old w.new rows at free k j (exprs_from doc.now k (j + 4) (q - j)) places.old places.new result.number result.place result.at }
{
    if q <= j {
        return lined_at(0, k, 0, at);
    }
    let x = expr(
        doc,
        a,
        d,
        w,
        rows,
        0,
        FIRST_RUN,
        at,
        free,
        word(p, j + FIRST_ACTUAL),
    );
    let r = actual(a, d, w, at, free, k, j, places, x);
    if r.number != 0 {
        return r;
    }
    actuals(doc, a, d, w, rows, r.at, free, k, p, j + 1, q, places)
}
