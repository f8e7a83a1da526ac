// A finding as one number for C and Rust, and back.
#![tactic(auto)]

ghost use Rattle.std.specs.Prelude.{◌≡◌, ◌+◌, ◌*◌};
ghost use Rattle.capi_codes.specs.Code.{code_of, code_finding, run_code};

use evaluator_rules::Ending;
use reader_rules::Refusal;

// The places under each number: as many as a word has values.
const PLACES: u64 = 4294967296;

// A refusal as one number: number * 2^32 + place.
fn refusal_code(refusal: Refusal) -> u64
    ensures { result ≡ refusal.number * 4294967296 + refusal.place }
{
    u64::from(refusal.number) * PLACES + u64::from(refusal.place)
}

// A finding of reading, a state, a check or a fit as one number: 0 where there is none.
#[tactic(auto, unfolding(crate::specs::Code::code_of))]
pub fn code_of(finding: Result<(), Refusal>) -> u64
    ensures { result ≡ code_of finding }
{
    match finding {
        Ok(()) => 0,
        Err(refusal) => refusal_code(refusal),
    }
}

// A run's finding as one number: 0 where it holds, 1 * 2^32 + node where it fails.
#[tactic(auto, unfolding(crate::specs::Code::run_code))]
pub fn run_code(finding: Result<Ending, Refusal>) -> u64
    ensures { result ≡ run_code finding }
{
    match finding {
        Ok(Ending::Holds) => 0,
        Ok(Ending::Fails { node }) => PLACES + u64::from(node),
        Err(refusal) => refusal_code(refusal),
    }
}

// The finding of a check that a number codes.
#[tactic(auto, unfolding(crate::specs::Code::code_finding))]
pub fn finding_of(code: u64) -> Result<(), Refusal>
    ensures { result ≡ code_finding code }
{
    if code == 0 {
        return Ok(());
    }
    Err(Refusal {
        number: (code / PLACES) as u32,
        place: (code % PLACES) as u32,
    })
}
