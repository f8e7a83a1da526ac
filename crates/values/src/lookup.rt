// Document 01, forms: "a name's value is read from the state or from the work area".
ghost use Rattle.std.specs.Prelude.{◌≡◌};
ghost use Rattle.values.specs.Lookup.{value_at};

use words::span;

// The words of a value as a part of one of the two lent slices.
pub fn value_at<'a>(
    state: &'a [u32],
    work: &'a [u32],
    in_state: bool,
    at: usize,
    len: usize,
) -> &'a [u32]
    ensures { result.now ≡ value_at state.now work.now in_state at len }
{
    if in_state {
        return span(state, at, len);
    }
    span(work, at, len)
}
