// Of which sorts the operands of a node are: by a choice over ranges of kinds, as in counts.rt, with no table.
ghost use Rattle.std.specs.Prelude.{◌≡◌, ◌≤◌, ◌<◌, ◌^◌};
ghost use Rattle.reader_rules.specs.Kinds.{cell, sort_row, sort_include, sort_in, sort_at};
ghost use Rattle.reader_nodes.specs.Choices.{sorts_number, by_place, each, two, one, paragraph_sorts, predicate_sorts, expression_sorts, other_sorts, chosen_sorts};

use crate::counts::{BEFORE_ACTUALS, operand_count};
use crate::sorts;
use codes::kinds;
use words::word;

// A choice is one number with a digit for each sort: of the first operand, of the second, of every other, and of the last where it differs.
const DIGIT: usize = 16;

const OTHERS: usize = DIGIT;

const SECOND: usize = DIGIT * OTHERS;

const FIRST: usize = DIGIT * SECOND;

const NOTHING: usize = 0;

#[tactic(auto, unfolding(crate::specs::Choices::sorts_number))]
fn by_place(first: usize, second: usize, others: usize, last: usize) -> usize
    requires { (first < 16) × (second < 16) × (others < 16) × (last < 16) }
    ensures { result ≡ sorts_number (by_place first second others last) }
{
    first * FIRST + second * SECOND + others * OTHERS + last
}

fn each(s: usize) -> usize
    requires { s < 16 }
    ensures { result ≡ sorts_number (each s) }
{
    by_place(s, s, s, sorts::NONE)
}

fn two(first: usize, second: usize) -> usize
    requires { (first < 16) × (second < 16) }
    ensures { result ≡ sorts_number (two first second) }
{
    by_place(first, second, sorts::NONE, sorts::NONE)
}

fn one(s: usize) -> usize
    requires { s < 16 }
    ensures { result ≡ sorts_number (one s) }
{
    two(s, sorts::NONE)
}

// Given and Axiom.
#[tactic(auto, unfolding(crate::specs::Choices::sorts_number, crate::specs::Choices::paragraph_sorts))]
fn declaration(q: usize) -> usize
    requires { (2 ≤ q) × (q ≤ 3) }
    ensures { result ≡ sorts_number (paragraph_sorts q) }
{
    if q == kinds::GIVEN {
        return each(sorts::IDENTIFIERS);
    }
    one(sorts::TEXTS)
}

// Schema and Abbreviation.
#[tactic(auto, unfolding(crate::specs::Choices::sorts_number, crate::specs::Choices::paragraph_sorts))]
fn definition(q: usize) -> usize
    requires { (4 ≤ q) × (q ≤ 5) }
    ensures { result ≡ sorts_number (paragraph_sorts q) }
{
    if q == kinds::SCHEMA {
        return by_place(
            sorts::SCHEMA_NAMES,
            sorts::COUNTS,
            sorts::IDENTIFIERS,
            sorts::SCHEMA_EXPRESSIONS,
        );
    }
    by_place(
        sorts::IDENTIFIERS,
        sorts::COUNTS,
        sorts::IDENTIFIERS,
        sorts::EXPRESSIONS,
    )
}

#[tactic(auto, unfolding(crate::specs::Choices::paragraph_sorts))]
fn paragraph(q: usize) -> usize
    requires { (2 ≤ q) × (q ≤ 6) }
    ensures { result ≡ sorts_number (paragraph_sorts q) }
{
    match q {
        kinds::GIVEN..=kinds::AXIOM => declaration(q),
        kinds::SCHEMA..=kinds::ABBREVIATION => definition(q),
        _ => one(sorts::PREDICATES),
    }
}

#[tactic(auto, unfolding(crate::specs::Choices::sorts_number, crate::specs::Choices::predicate_sorts))]
fn predicate(q: usize) -> usize
    ensures { result ≡ sorts_number (predicate_sorts q) }
{
    match q {
        kinds::TRUE => NOTHING,
        kinds::EQUAL..=kinds::AT_MOST => two(sorts::EXPRESSIONS, sorts::EXPRESSIONS),
        kinds::NOT => one(sorts::PREDICATES),
        kinds::AND..=kinds::IMPLIES => two(sorts::PREDICATES, sorts::PREDICATES),
        _ => two(sorts::TEXTS, sorts::PREDICATES),
    }
}

// Ref, Number and ℤ.
#[tactic(auto, unfolding(crate::specs::Choices::sorts_number, crate::specs::Choices::expression_sorts))]
fn name_or_number(q: usize) -> usize
    requires { (30 ≤ q) × (q ≤ 32) }
    ensures { result ≡ sorts_number (expression_sorts q) }
{
    match q {
        kinds::REF => by_place(
            sorts::IDENTIFIERS,
            sorts::EXPRESSIONS,
            sorts::EXPRESSIONS,
            sorts::NONE,
        ),
        kinds::NUMBER => one(sorts::NUMBERS),
        _ => NOTHING,
    }
}

// Select, Theta and SchemaSet.
#[tactic(auto, unfolding(crate::specs::Choices::sorts_number, crate::specs::Choices::expression_sorts))]
fn binding(q: usize) -> usize
    requires { (38 ≤ q) × (q ≤ 40) }
    ensures { result ≡ sorts_number (expression_sorts q) }
{
    match q {
        kinds::SELECT => two(sorts::EXPRESSIONS, sorts::IDENTIFIERS),
        kinds::THETA => two(sorts::SCHEMA_NAMES, sorts::STROKES),
        _ => one(sorts::INCLUDES),
    }
}

#[tactic(auto, unfolding(crate::specs::Choices::sorts_number, crate::specs::Choices::expression_sorts))]
fn expression(q: usize) -> usize
    requires { (30 ≤ q) × (q ≤ 46) }
    ensures { result ≡ sorts_number (expression_sorts q) }
{
    match q {
        kinds::REF..=kinds::INTEGERS => name_or_number(q),
        kinds::SET..=kinds::PRODUCT => each(sorts::EXPRESSIONS),
        kinds::POWER => one(sorts::EXPRESSIONS),
        kinds::SELECT..=kinds::SCHEMA_SET => binding(q),
        kinds::COMPREHENSION => two(sorts::TEXTS, sorts::EXPRESSIONS),
        _ => two(sorts::EXPRESSIONS, sorts::EXPRESSIONS),
    }
}

// Text, Decl and Include.
#[tactic(auto, unfolding(crate::specs::Choices::sorts_number, crate::specs::Choices::other_sorts, crate::specs::Choices::by_kind))]
fn text(q: usize) -> usize
    requires { (10 ≤ q) × (q ≤ 12) }
    ensures { result ≡ sorts_number (other_sorts q) }
{
    match q {
        kinds::TEXT => by_place(sorts::PREDICATES, sorts::LINES, sorts::LINES, sorts::NONE),
        kinds::DECL => by_place(
            sorts::EXPRESSIONS,
            sorts::IDENTIFIERS,
            sorts::IDENTIFIERS,
            sorts::NONE,
        ),
        _ => by_place(
            sorts::SCHEMA_NAMES,
            sorts::STROKES,
            sorts::COUNTS,
            sorts::NONE,
        ),
    }
}

// The kinds outside paragraphs, predicates and expressions, listed or not.
#[tactic(auto, unfolding(crate::specs::Choices::sorts_number, crate::specs::Choices::other_sorts, crate::specs::Choices::by_kind))]
fn other(q: usize) -> usize
    ensures { result ≡ sorts_number (other_sorts q) }
{
    match q {
        kinds::DOCUMENT => each(sorts::PARAGRAPHS),
        kinds::TEXT..=kinds::INCLUDE => text(q),
        kinds::CONJUNCTION => two(sorts::SCHEMA_EXPRESSIONS, sorts::SCHEMA_EXPRESSIONS),
        _ => NOTHING,
    }
}

#[tactic(auto, unfolding(crate::specs::Choices::chosen_sorts, crate::specs::Choices::by_ranges))]
fn sorts_of(q: usize) -> usize
    ensures { result ≡ sorts_number (chosen_sorts q) }
{
    match q {
        kinds::GIVEN..=kinds::CONSTRAINT => paragraph(q),
        kinds::TRUE..=kinds::EXISTS => predicate(q),
        kinds::REF..=kinds::COMPREHENSION => expression(q),
        _ => other(q),
    }
}

#[tactic(auto, using(crate::proofs::ChoiceLaws::first_cell, crate::proofs::ChoiceLaws::second_cell, crate::proofs::ChoiceLaws::others_cell))]
fn sort_row(q: usize, i: usize) -> usize
    ensures { result ≡ sort_row q i }
{
    let chosen = sorts_of(q);
    match i {
        1 => chosen / FIRST,
        2 => chosen / SECOND % DIGIT,
        _ => chosen / OTHERS % DIGIT,
    }
}

// The sort of the last operand where it differs, else 0.
#[tactic(auto, using(crate::proofs::ChoiceLaws::last_cell))]
fn sort_last(q: usize) -> usize
    ensures { result ≡ cell q 5 }
{
    sorts_of(q) % DIGIT
}

// The sort of operand i of an Include with a actuals.
fn sort_include(a: usize, i: usize) -> usize
    requires { a < 2 ^ 32 }
    ensures { result ≡ sort_include a i }
{
    if i <= BEFORE_ACTUALS {
        return sort_row(kinds::INCLUDE, i);
    }
    if i <= a + BEFORE_ACTUALS {
        return sorts::EXPRESSIONS;
    }
    sorts::IDENTIFIERS
}

// The sort of operand i of n, of a node of kind q, with a actuals if that is an Include.
#[tactic(auto, unfolding(reader_rules::specs::Kinds::sort_in))]
fn sort_in(q: usize, n: usize, a: usize, i: usize) -> usize
    requires { a < 2 ^ 32 }
    ensures { result ≡ sort_in q n a i }
{
    if q == kinds::INCLUDE {
        return sort_include(a, i);
    }
    if i == n {
        let last = sort_last(q);
        if 0 < last {
            return last;
        }
    }
    sort_row(q, i)
}

// The sort of operand i of the node with these words.
pub fn sort_at(w: &[u32], i: usize) -> usize
    ensures { result ≡ sort_at w.now i }
{
    sort_in(word(w, 0), operand_count(w), word(w, 3), i)
}
