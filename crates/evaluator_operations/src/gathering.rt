// A set that grows in a lent array: its words first, and in the word behind the room for a value their number.
ghost use Rattle.std.specs.Prelude.{◌≤◌, length};
ghost use Rattle.values.specs.Value.{Value, Values, set};
ghost use Rattle.evaluator_rules.specs.Operations.{add};
ghost use Rattle.evaluator_operations.specs.Worked.{Holds, Told, SetIn, Grown};

use crate::worked::refusal;
use codes::{findings, limits};
use reader_rules::Refusal;
use values::held::{Held, hold};
use values::sets;
use words::{copy, store, word};

// The words of such an array.
pub const GATHERED: usize = limits::VALUE + 1;

// Writes a set to an array that is long enough.
pub fn put_set(s: &mut [u32], t: Held)
    requires { t.len ≤ 64 }
    ensures { (vs : Values) → 65 ≤ length s.old → Holds t (set vs) → SetIn s.new vs }
{
    if s.len() < GATHERED {
        return;
    }
    let w = t.words;
    let n = t.len;
    copy(&w, s, 0);
    store(s, limits::VALUE, n as u32);
}

// The set with the member v; over 64 words is 55, at node k.
pub fn gather(k: usize, s: &mut [u32], v: Held) -> Result<(), Refusal>
    requires { k ≤ 1024 }
    ensures { (vs : Values) (x : Value) → SetIn s.old vs → Holds v x → Told (Grown s.new) result (add k x vs) }
{
    let w = v.words;
    let n = v.len;
    let t = sets::insert(
        words::span(s, 0, word(s, limits::VALUE)),
        words::span(&w, 0, n),
    );
    if limits::VALUE < t.len {
        return Err(refusal(findings::TOO_LONG, k));
    }
    put_set(s, t);
    Ok(())
}

// The set by value.
pub fn gathered(s: &[u32]) -> Held
    ensures { (vs : Values) → SetIn s.now vs → Holds result (set vs) }
{
    hold(words::span(s, 0, word(s, limits::VALUE)))
}
