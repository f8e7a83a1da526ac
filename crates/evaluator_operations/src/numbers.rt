// The operations on integers, each with its findings at node k.
ghost use Rattle.std.specs.Prelude.{◌≡◌, ◌≤◌, pos};
ghost use Rattle.values.specs.Value.{Value, int};
ghost use Rattle.reader_rules.specs.Decode.{operator_of};
ghost use Rattle.evaluator_rules.specs.Operations.{keep_integer, calculate};
ghost use Rattle.evaluator_operations.specs.Steps.{arithmetic_of, at_most_of, integer_test};
ghost use Rattle.evaluator_operations.specs.Worked.{Holds, Is, Told, Counted, Judged};

use crate::worked::refusal;
use codes::{findings, kinds};
use reader_rules::Refusal;
use values::held::Held;
use values::numbers::{integer_value, number_of};
use values_integers::integer;
use values_integers::integer::ArithmeticError;

// An integer as a value.
pub fn whole(z: i32) -> Held
    ensures { (v : Value) → Counted z v → Holds result v }
{
    integer_value(z)
}

// An integer that arithmetic gave.
fn kept_integer(k: usize, z: Result<i32, ArithmeticError>) -> Result<i32, Refusal>
    requires { k ≤ 1024 }
    ensures { Told Counted result (keep_integer k z) }
{
    match z {
        Ok(i) => Ok(i),
        Err(ArithmeticError::Undefined) => Err(refusal(findings::UNDEFINED, k)),
        Err(ArithmeticError::Outside) => Err(refusal(findings::OUTSIDE, k)),
    }
}

// Arithmetic of kind q, 41 to 45.
fn calculate(q: usize, a: i32, b: i32) -> Result<i32, ArithmeticError>
    ensures { result ≡ calculate (operator_of q) a b }
{
    match q {
        kinds::MINUS => integer::subtract(a, b),
        kinds::TIMES => integer::multiply(a, b),
        kinds::DIV => integer::divide(a, b),
        kinds::MOD => integer::modulo(a, b),
        _ => integer::add(a, b),
    }
}

// The integer that a value is.
pub fn number(v: Held) -> Option<i32>
    ensures { (x : Value) → Holds v x → Is result x }
{
    let w = v.words;
    let len = v.len;
    number_of(words::span(&w, 0, len))
}

pub fn arithmetic(k: usize, q: usize, a: Option<i32>, b: Option<i32>) -> Result<i32, Refusal>
    requires { k ≤ 1024 }
    ensures { (x y : Value) → Is a x → Is b y → Told Counted result (arithmetic_of k q x y) }
{
    match a {
        None => Err(refusal(findings::MISFIT, k)),
        Some(i) => match b {
            None => Err(refusal(findings::MISFIT, k)),
            Some(j) => kept_integer(k, calculate(q, i, j)),
        },
    }
}

pub fn at_most(k: usize, a: Option<i32>, b: Option<i32>) -> Result<bool, Refusal>
    requires { k ≤ 1024 }
    ensures { (x y : Value) → Is a x → Is b y → Told Judged result (at_most_of k x y) }
{
    match a {
        None => Err(refusal(findings::MISFIT, k)),
        Some(i) => match b {
            None => Err(refusal(findings::MISFIT, k)),
            Some(j) => Ok(i <= j),
        },
    }
}

// An integer passes the test against ℤ.
pub fn is_integer(k: usize, v: Held) -> Result<bool, Refusal>
    requires { k ≤ 1024 }
    ensures { (x : Value) → Holds v x → Told Judged result (integer_test k x) }
{
    let x = number(v);
    match x {
        None => Err(refusal(findings::MISFIT, k)),
        Some(i) => Ok(true),
    }
}

// The integer of a Number, at most 2,147,483,647.
pub fn counted(z: usize) -> i32
    requires { z ≤ 2147483647 }
    ensures { Counted result (int (pos z)) }
{
    z as i32
}
