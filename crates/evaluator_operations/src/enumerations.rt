// Power and Product as values, each with its findings at node k.
ghost use Rattle.std.specs.Prelude.{List, ◌≤◌, false};
ghost use Rattle.values.specs.Value.{Value, Values};
ghost use Rattle.evaluator_operations.specs.Steps.{power_of, product_of};
ghost use Rattle.evaluator_operations.specs.Worked.{Holds, Told, no_parts, Tuples, Crosses, Crossed};

use crate::collections::kept;
use crate::worked::refusal;
use codes::{findings, value_tags};
use enumeration::powers::power;
use enumeration::products::extend;
use reader_rules::Refusal;
use values::held::Held;
use words::word;

// The power of the value v, which must be a set.
pub fn powered(k: usize, v: Held) -> Result<Held, Refusal>
    requires { k ≤ 1024 }
    ensures { (x : Value) → Holds v x → Told Holds result (power_of k x) }
{
    let w = v.words;
    let n = v.len;
    if word(&w, 0) == value_tags::SET {
        return kept(k, power(words::span(&w, 0, n)));
    }
    Err(refusal(findings::MISFIT, k))
}

// The tuples s of a Product's operands so far, with the value v as the next operand. None: one of them is no set.
pub fn crossed(s: Option<Held>, v: Held) -> Option<Held>
    ensures { (rs : List Values) (x : Value) → Tuples s rs → Holds v x → Crosses rs s result x }
{
    let w = v.words;
    let n = v.len;
    if word(&w, 0) != value_tags::SET {
        return None;
    }
    match s {
        Some(t) => Some(extend(t, words::span(&w, 0, n))),
        None => None,
    }
}

// The Product, once its last operand is crossed.
pub fn multiplied(k: usize, s: Option<Held>) -> Result<Held, Refusal>
    requires { k ≤ 1024 }
    ensures { (h : Held) (vs : Values) → Crossed (Some h) no_parts s vs → Told Holds result (product_of k vs) }
{
    match s {
        Some(t) => kept(k, t),
        None => Err(refusal(findings::MISFIT, k)),
    }
}
