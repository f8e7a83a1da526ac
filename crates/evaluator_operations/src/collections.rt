// The operations on sets and tuples, each with its findings at node k.
ghost use Rattle.std.specs.Prelude.{◌≡◌, true, false, List, [], ◌∷◌, ◌++◌, ℕ, ◌-◌, ◌≤◌, ◌<◌, ◌^◌, get_or, take, drop};
ghost use Rattle.values.specs.Held.{keep as words};
ghost use Rattle.values.specs.Span.{span};
ghost use Rattle.values.specs.Value.{Value, Values, nil, encode};
ghost use Rattle.values.specs.Value as Value;
ghost use Rattle.values.specs.SetValues.{same_value};
ghost use Rattle.evaluator_rules.specs.Outcomes.{keep};
ghost use Rattle.evaluator_operations.specs.Steps.{image_of};
ghost use Rattle.evaluator_rules.specs.Rules.{among_members};
ghost use Rattle.evaluator_operations.specs.Worked.{narrow, Holds, Told, Judged};

use crate::worked::refusal;
use codes::{findings, limits, value_tags};
use reader_rules::Refusal;
use values::held::{Held, append, hold};
use values::order::same;
use values::sets;
use values::sets::NoImage;
use values::span::span;
use words::{from, word};

// The tags as words.
const SET: u32 = value_tags::SET as u32;

const TUPLE: u32 = value_tags::TUPLE as u32;

// A value that is complete: over 64 words is 55.
pub fn kept(k: usize, v: Held) -> Result<Held, Refusal>
    requires { k ≤ 1024 }
    ensures { (x : Value) → v ≡ words (encode x) → narrow x ≡ true → Told Holds result (keep k x) }
{
    if limits::VALUE < v.len {
        return Err(refusal(findings::TOO_LONG, k));
    }
    Ok(v)
}

// = compares words.
pub fn equal(a: Held, b: Held) -> bool
    ensures { (x y : Value) → Holds a x → Holds b y → result ≡ same_value x y }
{
    let u = a.words;
    let m = a.len;
    let v = b.words;
    let n = b.len;
    same(words::span(&u, 0, m), words::span(&v, 0, n))
}

// Member against a value, which must be a set.
pub fn among(k: usize, v: Held, s: Held) -> Result<bool, Refusal>
    requires { k ≤ 1024 }
    ensures { (x y : Value) → Holds v x → Holds s y → Told Judged result (among_members k x y) }
{
    let u = v.words;
    let m = v.len;
    let w = s.words;
    let n = s.len;
    if word(&w, 0) == value_tags::SET {
        return Ok(sets::is_member(words::span(&w, 0, n), words::span(&u, 0, m)));
    }
    Err(refusal(findings::MISFIT, k))
}

// Apply.
pub fn applied(k: usize, f: Held, a: Held) -> Result<Held, Refusal>
    requires { k ≤ 1024 }
    ensures { (x y : Value) → Holds f x → Holds a y → Told Holds result (image_of k x y) }
{
    let u = f.words;
    let m = f.len;
    let w = a.words;
    let n = a.len;
    let p = sets::apply(words::span(&u, 0, m), words::span(&w, 0, n));
    match p {
        Ok((at, len)) => Ok(hold(words::span(words::span(&u, 0, m), at, len))),
        Err(NoImage::Misfit) => Err(refusal(findings::MISFIT, k)),
        Err(NoImage::Undefined) => Err(refusal(findings::UNDEFINED, k)),
    }
}

// The tag and the count of a value.
pub fn tag_of(v: Held) -> usize
    ensures { result ≡ get_or v.words 0 0 }
{
    let w = v.words;
    word(&w, 0)
}

pub fn count_of(v: Held) -> usize
    ensures { (result ≡ get_or v.words 1 0) × (result < 2 ^ 32) }
{
    let w = v.words;
    word(&w, 1)
}

// The words of the member or part at a place, and how many they are.
pub fn length_at(v: Held, at: usize) -> usize
    ensures { (result ≡ span (drop at v.words)) × (result ≤ 96) }
{
    let w = v.words;
    span(from(&w, at))
}

pub fn member_at(v: Held, at: usize, len: usize) -> Held
    ensures { result ≡ words (take len (drop at v.words)) }
{
    let w = v.words;
    hold(words::span(&w, at, len))
}

// The empty set; a Tuple's tag and count, for a node of n words; the words of a value after those of others.
pub fn empty_set() -> Held
    ensures { Holds result (Value.set nil) }
{
    let w = [SET, 0];
    hold(&w)
}

pub fn tuple_head(n: usize) -> Held
    requires { (1 ≤ n) × (n ≤ 256) }
    ensures { result ≡ words (4 ∷ (n - 1) ∷ []) }
{
    let w = [TUPLE, (n - 1) as u32];
    hold(&w)
}

pub fn joined(s: Held, v: Held) -> Held
    ensures { (ws : List ℕ) (x : Value) → s ≡ words ws → Holds v x → result ≡ words (ws ++ encode x) }
{
    let w = v.words;
    let n = v.len;
    append(s, words::span(&w, 0, n))
}
