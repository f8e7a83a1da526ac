// The connectives and the quantifiers: what truth values decide.
ghost use Rattle.std.specs.Prelude.{◌≡◌};
ghost use Rattle.reader_rules.specs.Decode.{connective_of, quantifier_of};
ghost use Rattle.evaluator_operations.specs.Steps.{decision_of, verdict_of};

use codes::kinds;

// What the left side decides of and, or, implies, kinds 25 to 27; None: the right side does.
pub fn decides(q: usize, left: bool) -> Option<bool>
    ensures { result ≡ decision_of (connective_of q) left }
{
    if q == kinds::OR {
        if left {
            return Some(true);
        }
        return None;
    }
    if left {
        return None;
    }
    if q == kinds::IMPLIES {
        return Some(true);
    }
    Some(false)
}

// forall is false where it was stopped, and stops at a false; exists is true where it was stopped, and stops at a true. Kinds 28 and 29.
pub fn verdict(q: usize, b: bool) -> bool
    ensures { result ≡ verdict_of (quantifier_of q) b }
{
    if q == kinds::EXISTS {
        return b;
    }
    if b {
        return false;
    }
    true
}
