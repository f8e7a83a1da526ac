// The sort of a kind: by a choice over ranges of kinds, as in counts.rt.
ghost use Rattle.std.specs.Prelude.{◌≡◌, ◌≤◌};
ghost use Rattle.reader_rules.specs.Kinds.{between, of_sort};
ghost use Rattle.reader_nodes.specs.Choices.{within, other_sort, chosen_sort};

use crate::sorts;
use codes::kinds;

pub fn is_between(a: usize, q: usize, b: usize) -> bool
    ensures { result ≡ between a q b }
{
    a <= q && q <= b
}

// Text, Decl and Include.
#[tactic(auto, unfolding(crate::specs::Choices::other_sort, crate::specs::Choices::by_kind))]
fn text(q: usize) -> usize
    requires { (10 ≤ q) × (q ≤ 12) }
    ensures { result ≡ other_sort q }
{
    match q {
        kinds::TEXT => sorts::TEXTS,
        kinds::DECL => sorts::LINES,
        _ => sorts::INCLUDES,
    }
}

// The kinds outside paragraphs, predicates and expressions, listed or not.
#[tactic(auto, unfolding(crate::specs::Choices::other_sort, crate::specs::Choices::by_kind))]
fn other(q: usize) -> usize
    ensures { result ≡ other_sort q }
{
    match q {
        kinds::TEXT..=kinds::INCLUDE => text(q),
        kinds::CONJUNCTION => sorts::SCHEMA_EXPRESSIONS,
        _ => sorts::NONE,
    }
}

// The narrowest sort of kind q, 0 where it has none.
#[tactic(auto, unfolding(crate::specs::Choices::chosen_sort, crate::specs::Choices::by_ranges))]
fn sort_of(q: usize) -> usize
    ensures { result ≡ chosen_sort q }
{
    match q {
        kinds::GIVEN..=kinds::CONSTRAINT => sorts::PARAGRAPHS,
        kinds::TRUE..=kinds::EXISTS => sorts::PREDICATES,
        kinds::REF..=kinds::COMPREHENSION => sorts::EXPRESSIONS,
        _ => other(q),
    }
}

// What is of sort t is of node sort s: texts and includes are schema expressions too, and includes are lines.
#[tactic(auto, unfolding(crate::specs::Choices::within))]
fn is_within(t: usize, s: usize) -> bool
    ensures { result ≡ within t s }
{
    if s <= sorts::LAST_PLAIN {
        return false;
    }
    match s {
        sorts::SCHEMA_EXPRESSIONS => t == s || t == sorts::TEXTS || t == sorts::INCLUDES,
        sorts::LINES => t == s || t == sorts::INCLUDES,
        _ => t == s,
    }
}

// Kind q is of node sort s.
#[tactic(auto, using(crate::proofs::SortLaws::sorts_chosen))]
pub fn of_sort(s: usize, q: usize) -> bool
    ensures { result ≡ of_sort s q }
{
    is_within(sort_of(q), s)
}
