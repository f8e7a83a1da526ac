// The parameters of a Schema or an Abbreviation in its scope.
ghost use Rattle.std.specs.Prelude.{◌+◌, ◌-◌, take, drop};
ghost use Rattle.checker_entries.specs.Parameters.{ParametersAsk, ParametersPushed};

use checker_signatures::scopes::push_row;
use codes::type_tags;
use words::{store, word};

// The tags of `power of parameter i`.
const POWER: u32 = type_tags::POWER as u32;

const PARAMETER: u32 = type_tags::PARAMETER as u32;

// Their words, and a zero word after them.
const PLACE: usize = 4;

// The first place of the pool that types take: the word before a free place is zero.
pub const POOL_START: usize = 1;

// The words of the part before the parameters.
pub const FIRST_PARAMETER: usize = 3;

// Parameters number j + 1 to n: their rows go on the scope's stack of j rows, the words of their types into the pool. Where it is clean then.
pub fn push_parameters(a: &mut [u32], w: &mut [u32], p: &[u32], j: usize, n: usize) -> usize
    requires { ParametersAsk a.old w.old p.now j n }
    ensures { ParametersPushed a.old a.new w.old w.new (take (n - j) (drop (j + 3) p.now)) j n result }
{
    for i in j..n {
        let at = PLACE * i + POOL_START;
        store(a, at, POWER);
        store(a, at + 1, PARAMETER);
        store(a, at + 2, (i + 1) as u32);
        push_row(w, 0, i, word(p, i + FIRST_PARAMETER), at);
    }
    PLACE * n + POOL_START
}
