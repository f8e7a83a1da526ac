// What working something out gives: its value, or the finding that stops the run at a node.
ghost use Rattle.std.specs.Prelude.{◌≡◌, ◌≤◌};
ghost use Rattle.evaluator_operations.specs.Worked.{Stops};

use reader_rules::Refusal;

// What an assignment leaves: the next one follows, or a quantifier is decided and the others are passed over.
#[derive(Clone, Copy, PartialEq, Eq)]
pub enum Flow {
    Go,
    Halt,
}

// A finding at node k.
pub fn refusal(number: u32, k: usize) -> Refusal
    requires { k ≤ 1024 }
    ensures { Stops result number k }
{
    Refusal {
        number: number,
        place: k as u32,
    }
}
