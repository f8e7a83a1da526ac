// The names in scope, as blocks in the work area, the newest last (specs/Blocks.antt).
#![tactic(auto)]

mod classes;
pub mod named;

ghost use Rattle.std.specs.Prelude.{◌≡◌, false, ℕ, suc, MatchOption, ◌+◌, ◌*◌, ◌-◌, ◌≤◌, ◌<◌, ◌^◌, List, length, take, drop};
ghost use Rattle.values.specs.Value.{Value, Values};
ghost use Rattle.values.specs.Value as Value;
ghost use Rattle.std.proofs.lemmas.List.Edits.{sets};
ghost use Rattle.reader_rules.specs.Tree.{Exprs};
ghost use Rattle.evaluator_rules.specs.Run.{run_work_words};
ghost use Rattle.evaluator_rules.specs.Environment.{Environment, valued, generic, bind, lookup, refer, has_actuals};
ghost use Rattle.evaluator_rules.specs.Assignments.{no_more, domains};
ghost use Rattle.evaluator_operations.specs.Worked.{Holds, Is, Told};
ghost use Rattle.evaluator_scope.specs.Blocks.{Leaves, Stored, Scoped, Pending, Pushed, last_block, headed, value_of, head_words, block_words, block_count};

use codes::{findings, limits};
use evaluator_operations::worked::refusal;
use reader_rules::Refusal;
use values::held::{Held, hold};
use values::lookup::value_at;
use values::numbers::number_of;
use words::{copy, store, word};

// The words of a block's head: the name, its class, and the place and length of its value.
pub const HEAD: usize = 4;

const CLASS: usize = 1;

const PLACE: usize = 2;

const LENGTH: usize = 3;

// The words of a block: its head, and room for a value.
pub const BLOCK: usize = HEAD + limits::VALUE;

// Where a block with a set has its count, after its tag.
pub const COUNT: usize = HEAD + 1;

// The classes as words.
const WAITING: u32 = classes::WAITING as u32;

const IN_STATE: u32 = classes::IN_STATE as u32;

pub const IN_WORK: u32 = classes::IN_WORK as u32;

const GENERIC: u32 = classes::GENERIC as u32;

// The last of the first n blocks that is in scope under a name.
fn find(work: &[u32], n: usize, name: usize) -> Option<usize>
    requires { n ≤ block_count }
    ensures { MatchOption result (last_block work.now name n ≡ 0) (λ b. (last_block work.now name n ≡ suc b) × (b < n)) }
{
    for b in (0..n).rev() {
        if word(work, BLOCK * b) == name {
            if word(work, BLOCK * b + CLASS) != classes::WAITING {
                return Some(b);
            }
        }
    }
    None
}

// The words of the value of block b, as a part of the state or of the work area.
fn value_of<'a>(state: &'a [u32], work: &'a [u32], b: usize) -> &'a [u32]
    requires { b ≤ block_count }
    ensures { result.now ≡ value_of state.now work.now b }
{
    let at = BLOCK * b;
    value_at(
        state,
        work,
        word(work, at + CLASS) == classes::IN_STATE,
        word(work, at + PLACE),
        word(work, at + LENGTH),
    )
}

// The words of the value that a Ref at node k refers to: unknown 51, generic abbreviation 54, actuals on another name 51.
fn referred<'a>(
    state: &'a [u32],
    work: &'a [u32],
    n: usize,
    k: usize,
    name: usize,
    actuals: bool,
) -> Result<&'a [u32], Refusal>
    requires { (n ≤ block_count) × (k ≤ 1024) }
    ensures { (scope : Environment) → Scoped state.now work.now n scope → (xs : Exprs) → actuals ≡ has_actuals xs → Told (λ r x. Stored r.now x) result (refer k xs (lookup name scope)) }
{
    let Some(b) = find(work, n, name) else {
        return Err(refusal(findings::MISFIT, k));
    };
    if word(work, BLOCK * b + CLASS) == classes::GENERIC {
        return Err(refusal(findings::NOT_RUN, k));
    }
    if actuals {
        return Err(refusal(findings::MISFIT, k));
    }
    Ok(value_of(state, work, b))
}

pub fn refer<'a>(
    state: &'a [u32],
    work: &'a [u32],
    n: usize,
    k: usize,
    name: usize,
    actuals: bool,
) -> Result<Held, Refusal>
    requires { (n ≤ block_count) × (k ≤ 1024) }
    ensures { (scope : Environment) → Scoped state.now work.now n scope → (xs : Exprs) → actuals ≡ has_actuals xs → Told Holds result (refer k xs (lookup name scope)) }
{
    Ok(hold(referred(state, work, n, k, name, actuals)?))
}

// The same for a Ref without actuals, of which only the integer is asked: its words are read where they lie.
pub fn refer_integer<'a>(
    state: &'a [u32],
    work: &'a [u32],
    n: usize,
    k: usize,
    name: usize,
) -> Result<Option<i32>, Refusal>
    requires { (n ≤ block_count) × (k ≤ 1024) }
    ensures { (scope : Environment) → Scoped state.now work.now n scope → (xs : Exprs) → false ≡ has_actuals xs → Told Is result (refer k xs (lookup name scope)) }
{
    Ok(number_of(referred(state, work, n, k, name, false)?))
}

// Writes the head of block b.
pub fn put_head(work: &mut [u32], b: usize, name: usize, class: u32, at: usize, len: usize)
    requires { (b ≤ block_count) × (name < 2 ^ 32) × (at < 2 ^ 32) × (len < 2 ^ 32) }
    ensures { work.new ≡ headed work.old b name class at len }
{
    let base = BLOCK * b;
    store(work, base, name as u32);
    store(work, base + CLASS, class);
    store(work, base + PLACE, at as u32);
    store(work, base + LENGTH, len as u32);
}

// Copies a value into block b.
pub fn put_value(work: &mut [u32], b: usize, v: Held)
    requires { block_words * (b + 1) ≤ length work.old }
    ensures { work.new ≡ sets work.old (block_words * b + head_words) v.words }
{
    let w = v.words;
    copy(&w, work, BLOCK * b + HEAD);
}

// The identifiers of a Decl with the words x, from j on, in blocks from b on, with the set v that they run through; not in scope yet.
pub fn put_domains(work: &mut [u32], b: usize, x: &[u32], j: usize, v: Held)
    requires { (b + (length x.now - j) ≤ block_count) × (run_work_words ≤ length work.old) × (length x.now ≤ 256) }
    ensures { Pushed work.old work.new b (length x.now - j) ((vs : Values) → Holds v (Value.set vs) → Pending work.new b (length x.now - j) (domains (drop j x.now) vs no_more)) }
{
    for i in j..x.len() {
        put_head(work, b + (i - j), word(x, i), WAITING, 0, 0);
        put_value(work, b + (i - j), v);
    }
}

// A new name in block n, with a value by value.
pub fn put_name(work: &mut [u32], n: usize, name: usize, v: Held)
    requires { (block_words * (n + 1) ≤ length work.old) × (n < block_count) × (name < 2 ^ 32) × (v.len < 2 ^ 32) }
    ensures { Leaves n work.old work.new ((state : List ℕ) (scope : Environment) (x : Value) → Scoped state work.old n scope → Holds v x → Scoped state work.new (n + 1) (bind name (valued x) scope)) }
{
    let len = v.len;
    put_value(work, n, v);
    put_head(work, n, name, IN_WORK, BLOCK * n + HEAD, len);
}

// A new name in block n, whose value lies in the state.
pub fn put_entry(work: &mut [u32], n: usize, name: usize, at: usize, len: usize)
    requires { (block_words * (n + 1) ≤ length work.old) × (n < block_count) × (name < 2 ^ 32) × (at < 2 ^ 32) × (len < 2 ^ 32) }
    ensures { Leaves n work.old work.new ((state : List ℕ) (scope : Environment) (x : Value) → Scoped state work.old n scope → Stored (take len (drop at state)) x → Scoped state work.new (n + 1) (bind name (valued x) scope)) }
{
    put_head(work, n, name, IN_STATE, at, len);
}

// A new name in block n: an abbreviation with parameters.
pub fn put_generic(work: &mut [u32], n: usize, name: usize)
    requires { (block_words * (n + 1) ≤ length work.old) × (n < block_count) × (name < 2 ^ 32) }
    ensures { Leaves n work.old work.new ((state : List ℕ) (scope : Environment) → Scoped state work.old n scope → Scoped state work.new (n + 1) (bind name generic scope)) }
{
    put_head(work, n, name, GENERIC, 0, 0);
}
