// Plain words in the range of their sort.
ghost use Rattle.std.specs.Prelude.{◌≡◌, ◌≤◌};
ghost use Rattle.reader_rules.specs.Identifiers.{is_name, is_identifier};
ghost use Rattle.reader_rules.specs.Kinds.{plain_ok};

use crate::sorts;
use codes::{identifiers, limits};

fn is_name(v: usize) -> bool
    ensures { result ≡ is_name v }
{
    1 <= v && v <= identifiers::LARGEST_NAME
}

#[tactic(auto, unfolding(reader_rules::specs::Identifiers::name_of, reader_rules::specs::Identifiers::is_identifier))]
fn is_identifier(v: usize) -> bool
    ensures { result ≡ is_identifier v }
{
    is_name(v / identifiers::STROKES)
}

#[tactic(auto, unfolding(reader_rules::specs::Kinds::plain_ok))]
fn named_ok(s: usize, v: usize) -> bool
    requires { (1 ≤ s) × (s ≤ 2) }
    ensures { result ≡ plain_ok s v }
{
    if s == sorts::IDENTIFIERS {
        return is_identifier(v);
    }
    is_name(v)
}

#[tactic(auto, unfolding(reader_rules::specs::Kinds::plain_ok))]
fn number_ok(s: usize, v: usize) -> bool
    requires { (3 ≤ s) × (s ≤ 5) }
    ensures { result ≡ plain_ok s v }
{
    match s {
        sorts::STROKES => v <= identifiers::LARGEST_STROKE,
        sorts::NUMBERS => v <= limits::NUMBER,
        _ => v <= limits::PARAMETERS,
    }
}

// A plain word v of sort s is in range.
#[tactic(auto, unfolding(reader_rules::specs::Kinds::plain_ok))]
pub fn plain_ok(s: usize, v: usize) -> bool
    ensures { result ≡ plain_ok s v }
{
    match s {
        sorts::IDENTIFIERS..=sorts::SCHEMA_NAMES => named_ok(s, v),
        sorts::STROKES..=sorts::COUNTS => number_ok(s, v),
        _ => true,
    }
}
