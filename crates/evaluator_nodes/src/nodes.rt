// The evaluation rules: functions over nodes that call each other in a cycle, the node number falling. n is the number of blocks in the work area; a
// function over a kind's node takes its words w.
// Document 01, forms: "Expressions hold texts, texts hold predicates, and predicates hold expressions again".
ghost use Rattle.std.specs.Prelude.{◌≡◌, List, ℕ, suc, ◌+◌, ◌*◌, ◌-◌, ◌≤◌, ◌<◌, ◌^◌, length, get_or, take};
ghost use Rattle.layout.specs.Layout.{part};
ghost use Rattle.values.specs.Value.{Value, Values};
ghost use Rattle.values.specs.Value as Value;
ghost use Rattle.values.specs.Held.{keep as words};
ghost use Rattle.reader_rules.specs.Kinds.{expressions, predicates, texts, lines};
ghost use Rattle.reader_rules.specs.Limited.{declared_count};
ghost use Rattle.reader_rules.specs.Nodes.{kind_at, operand_at};
ghost use Rattle.reader_rules.specs.Promise.{At, Lower};
ghost use Rattle.reader_rules.specs.Decode.{expr_at, pred_at, exprs_from, lines_from};
ghost use Rattle.evaluator_rules.specs.Environment.{Environment};
ghost use Rattle.evaluator_rules.specs.Assignments.{Domains};
ghost use Rattle.evaluator_rules.specs.Operations.{all_pass};
ghost use Rattle.evaluator_rules.specs.Rules.{eval_expr, eval_exprs, eval_members, eval_pred, test, test_exprs};
ghost use Rattle.evaluator_nodes.specs.Turns.{body_at, turn_at};
ghost use Rattle.evaluator_operations.specs.Worked.{Holds, Is, Told, Counted, Judged, SetIn, Grown, Joined, Tuples, Crossed};
ghost use Rattle.evaluator_scope.specs.Blocks.{Scoped, Leaves};
ghost use Rattle.evaluator_nodes.specs.Ready.{Ready, Handed, Operands, Scoping, Assigns, Tells, Rest, Evaluates, Decides, LinesTold, AssignTold, EachTold, BodyTold};

use codes::{findings, kinds, limits, value_tags};
use enumeration::products::unit;
use evaluator_operations::collections::{
    among, applied, count_of, empty_set, equal, joined, kept, length_at, member_at, tag_of,
    tuple_head,
};
use evaluator_operations::enumerations::{crossed, multiplied, powered};
use evaluator_operations::gathering::{GATHERED, gather, gathered, put_set};
use evaluator_operations::logic::{decides, verdict};
use evaluator_operations::numbers::{arithmetic, at_most, counted, is_integer, number, whole};
use evaluator_operations::worked::{Flow, refusal};
use evaluator_scope::{BLOCK, IN_WORK, put_domains, put_head, refer, refer_integer};
use layout::part;
use reader_rules::Refusal;
use values::held::{Held, empty};
use values::span::{HEAD, span};
use words::{from, word};

// The operands from i on as expressions, one after the other: their words after those of s.
#[cycle(adds_all_apply_arith_assign_below_body_compr_connect_display_each_each_part_expr_factors_lines_member_negate_parts_power_pred_product_quant_reckon_refers_same_subsets_tests_tuple_tuples_turn_value)]
fn parts(
    doc: &[u32],
    state: &[u32],
    work: &mut [u32],
    n: usize,
    k: usize,
    w: &[u32],
    i: usize,
    s: Held,
) -> Result<Held, Refusal>
    requires { Handed doc.now work.old w.now expressions n k × Operands doc.now w.now k expressions i × (i ≤ 256) }
    ensures { Leaves n work.old work.new ((ws : List ℕ) → s ≡ words ws → Tells state.now work.old n (Joined ws (length w.now - i)) result (eval_exprs (exprs_from doc.now k i (length w.now - i)))) }
{
    if w.len() <= i {
        return Ok(s);
    }
    let x = expr(doc, state, work, n, word(w, i))?;
    parts(doc, state, work, n, k, w, i + 1, joined(s, x))
}

// The operands from i on as members, each added to the set s as it is worked out.
#[cycle(adds_all_apply_arith_assign_below_body_compr_connect_display_each_each_part_expr_factors_lines_member_negate_parts_power_pred_product_quant_reckon_refers_same_subsets_tests_tuple_tuples_turn_value)]
fn adds(
    doc: &[u32],
    state: &[u32],
    work: &mut [u32],
    n: usize,
    k: usize,
    w: &[u32],
    i: usize,
    s: &mut [u32],
) -> Result<(), Refusal>
    requires { Handed doc.now work.old w.now expressions n k × Operands doc.now w.now k expressions i × (i ≤ 256) }
    ensures { Leaves n work.old work.new ((vs : Values) → SetIn s.old vs → Tells state.now work.old n (Grown s.new) result (λ scope. eval_members (exprs_from doc.now k i (length w.now - i)) k scope vs)) }
{
    if w.len() <= i {
        return Ok(());
    }
    let x = expr(doc, state, work, n, word(w, i))?;
    gather(k, s, x)?;
    adds(doc, state, work, n, k, w, i + 1, s)
}

// 33 Set.
#[cycle(adds_all_apply_arith_assign_below_body_compr_connect_display_each_each_part_expr_factors_lines_member_negate_parts_power_pred_product_quant_reckon_refers_same_subsets_tests_tuple_tuples_turn_value)]
fn display(
    doc: &[u32],
    state: &[u32],
    work: &mut [u32],
    n: usize,
    k: usize,
    w: &[u32],
) -> Result<Held, Refusal>
    requires { Handed doc.now work.old w.now expressions n k × (kind_at doc.now k ≡ 33) }
    ensures { Evaluates doc.now k n state.now work.old work.new result }
{
    let mut s = [0u32; GATHERED];
    put_set(&mut s, empty_set());
    adds(doc, state, work, n, k, w, 1, &mut s)?;
    Ok(gathered(&s))
}

// 30 Ref.
#[cycle(adds_all_apply_arith_assign_below_body_compr_connect_display_each_each_part_expr_factors_lines_member_negate_parts_power_pred_product_quant_reckon_refers_same_subsets_tests_tuple_tuples_turn_value)]
fn refers(
    doc: &[u32],
    state: &[u32],
    work: &mut [u32],
    n: usize,
    k: usize,
    w: &[u32],
) -> Result<Held, Refusal>
    requires { Handed doc.now work.old w.now expressions n k × (kind_at doc.now k ≡ 30) }
    ensures { Evaluates doc.now k n state.now work.old work.new result }
{
    if w.len() <= 2 {
        return refer(state, &work[..], n, k, word(w, 1), false);
    }
    parts(doc, state, work, n, k, w, 2, empty())?;
    refer(state, &work[..], n, k, word(w, 1), true)
}

// 34 Tuple.
#[cycle(adds_all_apply_arith_assign_below_body_compr_connect_display_each_each_part_expr_factors_lines_member_negate_parts_power_pred_product_quant_reckon_refers_same_subsets_tests_tuple_tuples_turn_value)]
fn tuple(
    doc: &[u32],
    state: &[u32],
    work: &mut [u32],
    n: usize,
    k: usize,
    w: &[u32],
) -> Result<Held, Refusal>
    requires { Handed doc.now work.old w.now expressions n k × (kind_at doc.now k ≡ 34) }
    ensures { Evaluates doc.now k n state.now work.old work.new result }
{
    let x = parts(doc, state, work, n, k, w, 1, tuple_head(w.len()))?;
    kept(k, x)
}

// 36 Power as a value.
#[cycle(adds_all_apply_arith_assign_below_body_compr_connect_display_each_each_part_expr_factors_lines_member_negate_parts_power_pred_product_quant_reckon_refers_same_subsets_tests_tuple_tuples_turn_value)]
fn subsets(
    doc: &[u32],
    state: &[u32],
    work: &mut [u32],
    n: usize,
    k: usize,
    w: &[u32],
) -> Result<Held, Refusal>
    requires { Handed doc.now work.old w.now expressions n k × (kind_at doc.now k ≡ 36) }
    ensures { Evaluates doc.now k n state.now work.old work.new result }
{
    let x = expr(doc, state, work, n, word(w, 1))?;
    powered(k, x)
}

// 35 Product as a value.
#[cycle(adds_all_apply_arith_assign_below_body_compr_connect_display_each_each_part_expr_factors_lines_member_negate_parts_power_pred_product_quant_reckon_refers_same_subsets_tests_tuple_tuples_turn_value)]
fn tuples(
    doc: &[u32],
    state: &[u32],
    work: &mut [u32],
    n: usize,
    k: usize,
    w: &[u32],
) -> Result<Held, Refusal>
    requires { Handed doc.now work.old w.now expressions n k × (kind_at doc.now k ≡ 35) }
    ensures { Evaluates doc.now k n state.now work.old work.new result }
{
    let x = factors(doc, state, work, n, k, w, 1, Some(unit()))?;
    multiplied(k, x)
}

// The operands from i on, each crossed with the tuples s of those before it; None: one of those was no set.
#[cycle(adds_all_apply_arith_assign_below_body_compr_connect_display_each_each_part_expr_factors_lines_member_negate_parts_power_pred_product_quant_reckon_refers_same_subsets_tests_tuple_tuples_turn_value)]
fn factors(
    doc: &[u32],
    state: &[u32],
    work: &mut [u32],
    n: usize,
    k: usize,
    w: &[u32],
    i: usize,
    s: Option<Held>,
) -> Result<Option<Held>, Refusal>
    requires { Handed doc.now work.old w.now expressions n k × Operands doc.now w.now k expressions i × (i ≤ 256) }
    ensures { Leaves n work.old work.new ((rs : List Values) → Tuples s rs → Tells state.now work.old n (Crossed s rs) result (eval_exprs (exprs_from doc.now k i (length w.now - i)))) }
{
    if w.len() <= i {
        return Ok(s);
    }
    let x = expr(doc, state, work, n, word(w, i))?;
    factors(doc, state, work, n, k, w, i + 1, crossed(s, x))
}

// 37 Apply.
#[cycle(adds_all_apply_arith_assign_below_body_compr_connect_display_each_each_part_expr_factors_lines_member_negate_parts_power_pred_product_quant_reckon_refers_same_subsets_tests_tuple_tuples_turn_value)]
fn apply(
    doc: &[u32],
    state: &[u32],
    work: &mut [u32],
    n: usize,
    k: usize,
    w: &[u32],
) -> Result<Held, Refusal>
    requires { Handed doc.now work.old w.now expressions n k × (kind_at doc.now k ≡ 37) }
    ensures { Evaluates doc.now k n state.now work.old work.new result }
{
    let x = expr(doc, state, work, n, word(w, 1))?;
    let y = expr(doc, state, work, n, word(w, 2))?;
    applied(k, x, y)
}

// 41 to 45: arithmetic.
#[cycle(adds_all_apply_arith_assign_below_body_compr_connect_display_each_each_part_expr_factors_lines_member_negate_parts_power_pred_product_quant_reckon_refers_same_subsets_tests_tuple_tuples_turn_value)]
fn arith(
    doc: &[u32],
    state: &[u32],
    work: &mut [u32],
    n: usize,
    k: usize,
    w: &[u32],
) -> Result<i32, Refusal>
    requires { Handed doc.now work.old w.now expressions n k × (41 ≤ kind_at doc.now k) × (kind_at doc.now k ≤ 45) }
    ensures { Leaves n work.old work.new (Tells state.now work.old n Counted result (eval_expr (expr_at doc.now k))) }
{
    let x = reckon(doc, state, work, n, word(w, 1))?;
    let y = reckon(doc, state, work, n, word(w, 2))?;
    arithmetic(k, word(w, 0), x, y)
}

// 46 Comprehension.
#[cycle(adds_all_apply_arith_assign_below_body_compr_connect_display_each_each_part_expr_factors_lines_member_negate_parts_power_pred_product_quant_reckon_refers_same_subsets_tests_tuple_tuples_turn_value)]
fn compr(
    doc: &[u32],
    state: &[u32],
    work: &mut [u32],
    n: usize,
    k: usize,
    w: &[u32],
) -> Result<Held, Refusal>
    requires { Handed doc.now work.old w.now expressions n k × (kind_at doc.now k ≡ 46) }
    ensures { Evaluates doc.now k n state.now work.old work.new result }
{
    let t = word(w, 1);
    let mut s = [0u32; GATHERED];
    put_set(&mut s, empty_set());
    let x = lines(doc, state, work, n, 0, k, t, part(doc, t), 2, &mut s)?;
    match x {
        Flow::Halt => Ok(empty_set()),
        Flow::Go => Ok(gathered(&s)),
    }
}

// A Ref, and the predicate true below, return at once: joined with the other arms, they make a run of many assignments a fifth slower.
#[cycle(adds_all_apply_arith_assign_below_body_compr_connect_display_each_each_part_expr_factors_lines_member_negate_parts_power_pred_product_quant_reckon_refers_same_subsets_tests_tuple_tuples_turn_value)]
pub fn expr(
    doc: &[u32],
    state: &[u32],
    work: &mut [u32],
    n: usize,
    k: usize,
) -> Result<Held, Refusal>
    requires { Ready doc.now work.old expressions n k }
    ensures { Evaluates doc.now k n state.now work.old work.new result }
{
    let w = part(doc, k);
    let q = word(w, 0);
    match q {
        kinds::REF => return refers(doc, state, work, n, k, w),
        kinds::NUMBER => Ok(whole(counted(word(w, 1)))),
        kinds::SET => display(doc, state, work, n, k, w),
        kinds::TUPLE => tuple(doc, state, work, n, k, w),
        kinds::PRODUCT => tuples(doc, state, work, n, k, w),
        kinds::POWER => subsets(doc, state, work, n, k, w),
        kinds::APPLY => apply(doc, state, work, n, k, w),
        kinds::PLUS..=kinds::MOD => Ok(whole(arith(doc, state, work, n, k, w)?)),
        kinds::COMPREHENSION => compr(doc, state, work, n, k, w),
        _ => Err(refusal(findings::NOT_RUN, k)),
    }
}

// An operand of arithmetic or of ≤: the integer that it is. A Number, a Ref without actuals and arithmetic need no value for it.
#[cycle(adds_all_apply_arith_assign_below_body_compr_connect_display_each_each_part_expr_factors_lines_member_negate_parts_power_pred_product_quant_reckon_refers_same_subsets_tests_tuple_tuples_turn_value)]
fn reckon(
    doc: &[u32],
    state: &[u32],
    work: &mut [u32],
    n: usize,
    k: usize,
) -> Result<Option<i32>, Refusal>
    requires { Ready doc.now work.old expressions n k }
    ensures { Leaves n work.old work.new (Tells state.now work.old n Is result (eval_expr (expr_at doc.now k))) }
{
    let w = part(doc, k);
    let q = word(w, 0);
    match q {
        kinds::REF => {
            if w.len() <= 2 {
                return refer_integer(state, &work[..], n, k, word(w, 1));
            }
            Ok(number(refers(doc, state, work, n, k, w)?))
        }
        kinds::NUMBER => Ok(Some(counted(word(w, 1)))),
        kinds::PLUS..=kinds::MOD => Ok(Some(arith(doc, state, work, n, k, w)?)),
        _ => Ok(number(expr(doc, state, work, n, k)?)),
    }
}

// 21 =.
#[cycle(adds_all_apply_arith_assign_below_body_compr_connect_display_each_each_part_expr_factors_lines_member_negate_parts_power_pred_product_quant_reckon_refers_same_subsets_tests_tuple_tuples_turn_value)]
fn same(
    doc: &[u32],
    state: &[u32],
    work: &mut [u32],
    n: usize,
    k: usize,
    w: &[u32],
) -> Result<bool, Refusal>
    requires { Handed doc.now work.old w.now predicates n k × (kind_at doc.now k ≡ 21) }
    ensures { Decides doc.now k n state.now work.old work.new result }
{
    let x = expr(doc, state, work, n, word(w, 1))?;
    let y = expr(doc, state, work, n, word(w, 2))?;
    Ok(equal(x, y))
}

// 22 member.
#[cycle(adds_all_apply_arith_assign_below_body_compr_connect_display_each_each_part_expr_factors_lines_member_negate_parts_power_pred_product_quant_reckon_refers_same_subsets_tests_tuple_tuples_turn_value)]
fn member(
    doc: &[u32],
    state: &[u32],
    work: &mut [u32],
    n: usize,
    k: usize,
    w: &[u32],
) -> Result<bool, Refusal>
    requires { Handed doc.now work.old w.now predicates n k × (kind_at doc.now k ≡ 22) }
    ensures { Decides doc.now k n state.now work.old work.new result }
{
    let x = expr(doc, state, work, n, word(w, 1))?;
    tests(doc, state, work, n, word(w, 2), x)
}

// 23 ≤.
#[cycle(adds_all_apply_arith_assign_below_body_compr_connect_display_each_each_part_expr_factors_lines_member_negate_parts_power_pred_product_quant_reckon_refers_same_subsets_tests_tuple_tuples_turn_value)]
fn below(
    doc: &[u32],
    state: &[u32],
    work: &mut [u32],
    n: usize,
    k: usize,
    w: &[u32],
) -> Result<bool, Refusal>
    requires { Handed doc.now work.old w.now predicates n k × (kind_at doc.now k ≡ 23) }
    ensures { Decides doc.now k n state.now work.old work.new result }
{
    let x = reckon(doc, state, work, n, word(w, 1))?;
    let y = reckon(doc, state, work, n, word(w, 2))?;
    at_most(k, x, y)
}

// 24 not.
#[cycle(adds_all_apply_arith_assign_below_body_compr_connect_display_each_each_part_expr_factors_lines_member_negate_parts_power_pred_product_quant_reckon_refers_same_subsets_tests_tuple_tuples_turn_value)]
fn negate(
    doc: &[u32],
    state: &[u32],
    work: &mut [u32],
    n: usize,
    k: usize,
    w: &[u32],
) -> Result<bool, Refusal>
    requires { Handed doc.now work.old w.now predicates n k × (kind_at doc.now k ≡ 24) }
    ensures { Decides doc.now k n state.now work.old work.new result }
{
    let x = pred(doc, state, work, n, word(w, 1))?;
    Ok(!x)
}

// 25 to 27: and, or, implies skip the right side when the left decides.
#[cycle(adds_all_apply_arith_assign_below_body_compr_connect_display_each_each_part_expr_factors_lines_member_negate_parts_power_pred_product_quant_reckon_refers_same_subsets_tests_tuple_tuples_turn_value)]
fn connect(
    doc: &[u32],
    state: &[u32],
    work: &mut [u32],
    n: usize,
    k: usize,
    w: &[u32],
) -> Result<bool, Refusal>
    requires { Handed doc.now work.old w.now predicates n k × (25 ≤ kind_at doc.now k) × (kind_at doc.now k ≤ 27) }
    ensures { Decides doc.now k n state.now work.old work.new result }
{
    let x = pred(doc, state, work, n, word(w, 1))?;
    match decides(word(w, 0), x) {
        Some(b) => Ok(b),
        None => pred(doc, state, work, n, word(w, 2)),
    }
}

// 28 forall, 29 exists.
#[cycle(adds_all_apply_arith_assign_below_body_compr_connect_display_each_each_part_expr_factors_lines_member_negate_parts_power_pred_product_quant_reckon_refers_same_subsets_tests_tuple_tuples_turn_value)]
fn quant(
    doc: &[u32],
    state: &[u32],
    work: &mut [u32],
    n: usize,
    k: usize,
    w: &[u32],
) -> Result<bool, Refusal>
    requires { Handed doc.now work.old w.now predicates n k × (28 ≤ kind_at doc.now k) × (kind_at doc.now k ≤ 29) }
    ensures { Decides doc.now k n state.now work.old work.new result }
{
    let t = word(w, 1);
    let mut none = [0u32; 0];
    let x = lines(doc, state, work, n, 0, k, t, part(doc, t), 2, &mut none)?;
    match x {
        Flow::Halt => Ok(verdict(word(w, 0), true)),
        Flow::Go => Ok(verdict(word(w, 0), false)),
    }
}

#[cycle(adds_all_apply_arith_assign_below_body_compr_connect_display_each_each_part_expr_factors_lines_member_negate_parts_power_pred_product_quant_reckon_refers_same_subsets_tests_tuple_tuples_turn_value)]
pub fn pred(
    doc: &[u32],
    state: &[u32],
    work: &mut [u32],
    n: usize,
    k: usize,
) -> Result<bool, Refusal>
    requires { Ready doc.now work.old predicates n k }
    ensures { Decides doc.now k n state.now work.old work.new result }
{
    let w = part(doc, k);
    let q = word(w, 0);
    match q {
        kinds::EQUAL => same(doc, state, work, n, k, w),
        kinds::MEMBER => member(doc, state, work, n, k, w),
        kinds::AT_MOST => below(doc, state, work, n, k, w),
        kinds::NOT => negate(doc, state, work, n, k, w),
        kinds::AND..=kinds::IMPLIES => connect(doc, state, work, n, k, w),
        kinds::FORALL..=kinds::EXISTS => quant(doc, state, work, n, k, w),
        _ => return Ok(true),
    }
}

// Member's test of the value v against the expression at node k.
#[cycle(adds_all_apply_arith_assign_below_body_compr_connect_display_each_each_part_expr_factors_lines_member_negate_parts_power_pred_product_quant_reckon_refers_same_subsets_tests_tuple_tuples_turn_value)]
pub fn tests(
    doc: &[u32],
    state: &[u32],
    work: &mut [u32],
    n: usize,
    k: usize,
    v: Held,
) -> Result<bool, Refusal>
    requires { Ready doc.now work.old expressions n k }
    ensures { Leaves n work.old work.new ((x : Value) → Holds v x → Tells state.now work.old n Judged result (λ scope. test (expr_at doc.now k) scope x)) }
{
    let w = part(doc, k);
    let q = word(w, 0);
    match q {
        kinds::INTEGERS => is_integer(k, v),
        kinds::PRODUCT => product(doc, state, work, n, k, w, v),
        kinds::POWER => power(doc, state, work, n, k, w, v),
        _ => value(doc, state, work, n, k, v),
    }
}

// Against any other E: it is worked out anew and must be a set.
#[cycle(adds_all_apply_arith_assign_below_body_compr_connect_display_each_each_part_expr_factors_lines_member_negate_parts_power_pred_product_quant_reckon_refers_same_subsets_tests_tuple_tuples_turn_value)]
fn value(
    doc: &[u32],
    state: &[u32],
    work: &mut [u32],
    n: usize,
    k: usize,
    v: Held,
) -> Result<bool, Refusal>
    requires { Ready doc.now work.old expressions n k × (kind_at doc.now k ≡ 32 → ⊥) × (kind_at doc.now k ≡ 35 → ⊥) × (kind_at doc.now k ≡ 36 → ⊥) }
    ensures { Leaves n work.old work.new ((x : Value) → Holds v x → Tells state.now work.old n Judged result (λ scope. test (expr_at doc.now k) scope x)) }
{
    let x = expr(doc, state, work, n, k)?;
    among(k, v, x)
}

// 36 Power: a set whose members pass.
#[cycle(adds_all_apply_arith_assign_below_body_compr_connect_display_each_each_part_expr_factors_lines_member_negate_parts_power_pred_product_quant_reckon_refers_same_subsets_tests_tuple_tuples_turn_value)]
fn power(
    doc: &[u32],
    state: &[u32],
    work: &mut [u32],
    n: usize,
    k: usize,
    w: &[u32],
    v: Held,
) -> Result<bool, Refusal>
    requires { Handed doc.now work.old w.now expressions n k × (kind_at doc.now k ≡ 36) }
    ensures { Leaves n work.old work.new ((x : Value) → Holds v x → Tells state.now work.old n Judged result (λ scope. test (expr_at doc.now k) scope x)) }
{
    if tag_of(v) != value_tags::SET {
        return Err(refusal(findings::MISFIT, k));
    }
    all(doc, state, work, n, word(w, 1), v, HEAD, count_of(v))
}

// The next c members of v, from a place on, against the expression at node k.
#[cycle(adds_all_apply_arith_assign_below_body_compr_connect_display_each_each_part_expr_factors_lines_member_negate_parts_power_pred_product_quant_reckon_refers_same_subsets_tests_tuple_tuples_turn_value)]
fn all(
    doc: &[u32],
    state: &[u32],
    work: &mut [u32],
    n: usize,
    k: usize,
    v: Held,
    at: usize,
    c: usize,
) -> Result<bool, Refusal>
    requires { Ready doc.now work.old expressions n k × (at + 96 * c < 2 ^ 60) × (c < 2 ^ 32) }
    ensures { Leaves n work.old work.new ((vs : Values) → Rest v at c vs → Tells state.now work.old n Judged result (λ scope. all_pass vs (test (expr_at doc.now k) scope))) }
{
    if c == 0 {
        return Ok(true);
    }
    let len = length_at(v, at);
    let x = tests(doc, state, work, n, k, member_at(v, at, len))?;
    if x {
        return all(doc, state, work, n, k, v, at + len, c - 1);
    }
    Ok(false)
}

// 35 Product: a tuple of that many parts that pass.
#[cycle(adds_all_apply_arith_assign_below_body_compr_connect_display_each_each_part_expr_factors_lines_member_negate_parts_power_pred_product_quant_reckon_refers_same_subsets_tests_tuple_tuples_turn_value)]
fn product(
    doc: &[u32],
    state: &[u32],
    work: &mut [u32],
    n: usize,
    k: usize,
    w: &[u32],
    v: Held,
) -> Result<bool, Refusal>
    requires { Handed doc.now work.old w.now expressions n k × (kind_at doc.now k ≡ 35) }
    ensures { Leaves n work.old work.new ((x : Value) → Holds v x → Tells state.now work.old n Judged result (λ scope. test (expr_at doc.now k) scope x)) }
{
    if tag_of(v) != value_tags::TUPLE {
        return Err(refusal(findings::MISFIT, k));
    }
    if count_of(v) + 1 != w.len() {
        return Err(refusal(findings::MISFIT, k));
    }
    each_part(doc, state, work, n, k, w, 1, v, HEAD)
}

// The parts of v from a place on, against the operands from i on.
#[cycle(adds_all_apply_arith_assign_below_body_compr_connect_display_each_each_part_expr_factors_lines_member_negate_parts_power_pred_product_quant_reckon_refers_same_subsets_tests_tuple_tuples_turn_value)]
fn each_part(
    doc: &[u32],
    state: &[u32],
    work: &mut [u32],
    n: usize,
    k: usize,
    w: &[u32],
    i: usize,
    v: Held,
    at: usize,
) -> Result<bool, Refusal>
    requires { Handed doc.now work.old w.now expressions n k × Operands doc.now w.now k expressions i × (i ≤ 256) × (at + 96 * (256 - i) < 2 ^ 60) }
    ensures { Leaves n work.old work.new ((vs : Values) → Rest v at (length w.now - i) vs → Tells state.now work.old n Judged result (λ scope. test_exprs (exprs_from doc.now k i (length w.now - i)) vs scope)) }
{
    if w.len() <= i {
        return Ok(true);
    }
    let len = length_at(v, at);
    let x = tests(doc, state, work, n, word(w, i), member_at(v, at, len))?;
    if x {
        return each_part(doc, state, work, n, k, w, i + 1, v, at + len);
    }
    Ok(false)
}

// The lines of Text t, with the words u, from i on: their sets, in blocks above the n in scope and the m of the lines before. Then the assignments.
#[cycle(adds_all_apply_arith_assign_below_body_compr_connect_display_each_each_part_expr_factors_lines_member_negate_parts_power_pred_product_quant_reckon_refers_same_subsets_tests_tuple_tuples_turn_value)]
fn lines(
    doc: &[u32],
    state: &[u32],
    work: &mut [u32],
    n: usize,
    m: usize,
    k: usize,
    t: usize,
    u: &[u32],
    i: usize,
    s: &mut [u32],
) -> Result<Flow, Refusal>
    requires { Scoping doc.now work.old n 6 k × (t ≡ operand_at doc.now k 1) × (u.now ≡ part doc.now t) × (2 ≤ i) × (length u.now ≤ 256) × (m + declared_count (lines_from doc.now t i (length u.now - i)) ≤ 6) }
    ensures { Leaves n work.old work.new (LinesTold doc.now k (lines_from doc.now t i (length u.now - i)) state.now work.old n m s.old s.new result) }
{
    if u.len() <= i {
        return assign(doc, state, work, n, m, k, s);
    }
    let v = word(u, i);
    let x = part(doc, v);
    if word(x, 0) == kinds::INCLUDE {
        return Err(refusal(findings::NOT_RUN, v));
    }
    let y = expr(doc, state, work, n + m, word(x, 1))?;
    if tag_of(y) != value_tags::SET {
        return Err(refusal(findings::MISFIT, v));
    }
    put_domains(work, n + m, x, 2, y);
    lines(doc, state, work, n, m + (x.len() - 2), k, t, u, i + 1, s)
}

// The assignments of the m identifiers in the blocks from n on, the first slowest, ascending; s are the members gathered so far.
#[cycle(adds_all_apply_arith_assign_below_body_compr_connect_display_each_each_part_expr_factors_lines_member_negate_parts_power_pred_product_quant_reckon_refers_same_subsets_tests_tuple_tuples_turn_value)]
fn assign(
    doc: &[u32],
    state: &[u32],
    work: &mut [u32],
    n: usize,
    m: usize,
    k: usize,
    s: &mut [u32],
) -> Result<Flow, Refusal>
    requires { Scoping doc.now work.old n m k }
    ensures { Assigns n m work.old work.new (AssignTold doc.now k state.now work.old n m s.old s.new result) }
{
    if m == 0 {
        return turn(doc, state, work, n, k, s);
    }
    let c = word(work, BLOCK * n + evaluator_scope::COUNT);
    each(doc, state, work, n, m - 1, k, c, s)
}

// The members of the set of block n, which has c members and 64 words, each with the assignments of the m identifiers above it.
#[cycle(adds_all_apply_arith_assign_below_body_compr_connect_display_each_each_part_expr_factors_lines_member_negate_parts_power_pred_product_quant_reckon_refers_same_subsets_tests_tuple_tuples_turn_value)]
fn each(
    doc: &[u32],
    state: &[u32],
    work: &mut [u32],
    n: usize,
    m: usize,
    k: usize,
    c: usize,
    s: &mut [u32],
) -> Result<Flow, Refusal>
    requires { Scoping doc.now work.old n (m + 1) k × (c < 2 ^ 32) }
    ensures { Assigns n (m + 1) work.old work.new (EachTold doc.now k state.now work.old n m 2 c s.old s.new result) }
{
    let mut at = HEAD;
    for i in 0..c {
        if limits::VALUE < at {
            return Ok(Flow::Go);
        }
        let here = BLOCK * n + (evaluator_scope::HEAD + at);
        let len = span(from(work, here));
        put_head(work, n, word(work, BLOCK * n), IN_WORK, here, len);
        let x = assign(doc, state, work, n + 1, m, k, s)?;
        match x {
            Flow::Halt => return Ok(Flow::Halt),
            Flow::Go => at += len,
        }
    }
    Ok(Flow::Go)
}

// One assignment: the body, where the Text's predicate is true.
#[cycle(adds_all_apply_arith_assign_below_body_compr_connect_display_each_each_part_expr_factors_lines_member_negate_parts_power_pred_product_quant_reckon_refers_same_subsets_tests_tuple_tuples_turn_value)]
fn turn(
    doc: &[u32],
    state: &[u32],
    work: &mut [u32],
    n: usize,
    k: usize,
    s: &mut [u32],
) -> Result<Flow, Refusal>
    requires { Scoping doc.now work.old n 0 k }
    ensures { Leaves n work.old work.new (BodyTold doc.now k (turn_at doc.now k) state.now work.old n s.old s.new result) }
{
    let t = word(part(doc, k), 1);
    let x = pred(doc, state, work, n, word(part(doc, t), 1))?;
    if x {
        return body(doc, state, work, n, k, s, part(doc, k));
    }
    Ok(Flow::Go)
}

// The body: a Comprehension adds its value, a quantifier stops where it is decided.
#[cycle(adds_all_apply_arith_assign_below_body_compr_connect_display_each_each_part_expr_factors_lines_member_negate_parts_power_pred_product_quant_reckon_refers_same_subsets_tests_tuple_tuples_turn_value)]
fn body(
    doc: &[u32],
    state: &[u32],
    work: &mut [u32],
    n: usize,
    k: usize,
    s: &mut [u32],
    w: &[u32],
) -> Result<Flow, Refusal>
    requires { Scoping doc.now work.old n 0 k × (w.now ≡ part doc.now k) }
    ensures { Leaves n work.old work.new (BodyTold doc.now k (body_at doc.now k) state.now work.old n s.old s.new result) }
{
    let b = word(w, 2);
    if word(w, 0) == kinds::COMPREHENSION {
        let x = expr(doc, state, work, n, b)?;
        gather(k, s, x)?;
        return Ok(Flow::Go);
    }
    let y = pred(doc, state, work, n, b)?;
    if verdict(word(w, 0), y) {
        return Ok(Flow::Halt);
    }
    Ok(Flow::Go)
}
