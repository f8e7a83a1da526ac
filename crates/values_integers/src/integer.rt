// Integers of 32 bits signed, as document 01 has them: sums past the range are 53, a divisor below 1 is 52.
ghost use Rattle.std.specs.Prelude.{◌≡◌};
ghost use Rattle.values_integers.specs.Integer.{signed, word_of, kept, sum, difference, product, quotient, remainder};

// The first word that is negative when it is read signed.
pub const NEGATIVE: u32 = i32::MAX as u32 + 1;

// The range of an integer.
const SMALLEST: i64 = i32::MIN as i64;

const LARGEST: i64 = i32::MAX as i64;

// Why arithmetic gives no integer. `integer_finding` of specs/Integer.antt has each case's number.
#[derive(Clone, Copy, PartialEq, Eq)]
pub enum ArithmeticError {
    Undefined,
    Outside,
}

// A word read signed.
pub fn signed(w: u32) -> i32
    ensures { result ≡ signed w }
{
    w.cast_signed()
}

// The word of an integer.
pub fn word_of(z: i32) -> u32
    ensures { result ≡ word_of z }
{
    z.cast_unsigned()
}

// An integer that is kept where 32 bits signed hold it.
fn kept(z: i64) -> Result<i32, ArithmeticError>
    ensures { result ≡ kept z }
{
    if z < SMALLEST {
        return Err(ArithmeticError::Outside);
    }
    if LARGEST < z {
        return Err(ArithmeticError::Outside);
    }
    Ok(z as i32)
}

pub fn add(a: i32, b: i32) -> Result<i32, ArithmeticError>
    ensures { result ≡ sum a b }
{
    kept(a as i64 + b as i64)
}

pub fn subtract(a: i32, b: i32) -> Result<i32, ArithmeticError>
    ensures { result ≡ difference a b }
{
    kept(a as i64 - b as i64)
}

pub fn multiply(a: i32, b: i32) -> Result<i32, ArithmeticError>
    ensures { result ≡ product a b }
{
    kept(a as i64 * b as i64)
}

// Division that rounds down: the quotient toward zero is one too high where the remainder is negative.
pub fn divide(a: i32, n: i32) -> Result<i32, ArithmeticError>
    ensures { result ≡ quotient a n }
{
    if n < 1 {
        return Err(ArithmeticError::Undefined);
    }
    let q = a / n;
    let r = a % n;
    if r < 0 {
        return Ok(q - 1);
    }
    Ok(q)
}

// What that division leaves: a negative remainder has n added. Document 01, forms: "a mod n lies in 0 to n − 1".
// At zero and at both ends of the range: `ends_hold` in proofs/Division.
pub fn modulo(a: i32, n: i32) -> Result<i32, ArithmeticError>
    ensures { result ≡ remainder a n }
{
    if n < 1 {
        return Err(ArithmeticError::Undefined);
    }
    let m = a % n;
    if m < 0 {
        return Ok(m + n);
    }
    Ok(m)
}
