// How many operands the nodes of a kind have. Document 01, forms: "The kinds fall in ranges, so decide the sort of a kind": a choice over ranges of
// kinds, with no table. The list of kinds is in reader_rules/specs/Kinds.antt, the choice in specs/Choices.antt.
ghost use Rattle.std.specs.Prelude.{◌≡◌, ◌-◌, ◌≤◌, ◌<◌, ◌^◌, length};
ghost use Rattle.reader_rules.specs.Kinds.{listed, count_row, count_by, count_ok};
ghost use Rattle.reader_nodes.specs.Choices.{counts_number, from_below, paragraph_counts, predicate_counts, expression_counts, other_counts, chosen_counts};

use codes::{kinds, limits};
use words::word;

// A choice is one number: the first number of operands that is too large, and in the last digit the fewest.
const DIGIT: usize = 16;

const UNLISTED: usize = 0;

// The operands of an Include before its actuals: schema name, stroke and count.
pub const BEFORE_ACTUALS: usize = 3;

// The operands of a Schema or Abbreviation beside its parameters: name, count, and what it defines the name as.
const BESIDE_PARAMETERS: usize = 3;

// The identifiers of an Include's rename pairs.
const RENAME_IDENTIFIERS: usize = 2 * limits::RENAMES;

#[tactic(auto, unfolding(crate::specs::Choices::counts_number))]
fn from_below(fewest: usize, limit: usize) -> usize
    requires { (fewest < 16) × (limit ≤ 256) }
    ensures { result ≡ counts_number (from_below fewest limit) }
{
    limit * DIGIT + fewest
}

#[tactic(auto, unfolding(crate::specs::Choices::paragraph_counts))]
fn paragraph(q: usize) -> usize
    ensures { result ≡ counts_number (paragraph_counts q) }
{
    match q {
        kinds::GIVEN => from_below(1, 17),
        kinds::SCHEMA..=kinds::ABBREVIATION => from_below(3, 8),
        _ => from_below(1, 2),
    }
}

#[tactic(auto, unfolding(crate::specs::Choices::predicate_counts))]
fn predicate(q: usize) -> usize
    ensures { result ≡ counts_number (predicate_counts q) }
{
    match q {
        kinds::TRUE => from_below(0, 1),
        kinds::NOT => from_below(1, 2),
        _ => from_below(2, 3),
    }
}

// Ref, Number and ℤ.
#[tactic(auto, unfolding(crate::specs::Choices::expression_counts))]
fn name_or_number(q: usize) -> usize
    requires { (30 ≤ q) × (q ≤ 32) }
    ensures { result ≡ counts_number (expression_counts q) }
{
    match q {
        kinds::REF => from_below(1, 6),
        kinds::NUMBER => from_below(1, 2),
        _ => from_below(0, 1),
    }
}

// Set, Tuple and Product.
#[tactic(auto, unfolding(crate::specs::Choices::expression_counts))]
fn collection(q: usize) -> usize
    requires { (33 ≤ q) × (q ≤ 35) }
    ensures { result ≡ counts_number (expression_counts q) }
{
    if q == kinds::SET {
        return from_below(0, 7);
    }
    from_below(2, 7)
}

#[tactic(auto, unfolding(crate::specs::Choices::expression_counts))]
fn expression(q: usize) -> usize
    requires { (30 ≤ q) × (q ≤ 46) }
    ensures { result ≡ counts_number (expression_counts q) }
{
    match q {
        kinds::REF..=kinds::INTEGERS => name_or_number(q),
        kinds::SET..=kinds::PRODUCT => collection(q),
        kinds::POWER => from_below(1, 2),
        kinds::SCHEMA_SET => from_below(1, 2),
        _ => from_below(2, 3),
    }
}

// Text, Decl and Include.
#[tactic(auto, unfolding(crate::specs::Choices::counts_number, crate::specs::Choices::other_counts, crate::specs::Choices::by_kind))]
fn text(q: usize) -> usize
    requires { (10 ≤ q) × (q ≤ 12) }
    ensures { result ≡ counts_number (other_counts q) }
{
    match q {
        kinds::TEXT => from_below(1, 8),
        kinds::DECL => from_below(2, 8),
        _ => from_below(3, 20),
    }
}

// The kinds outside paragraphs, predicates and expressions, listed or not.
#[tactic(auto, unfolding(crate::specs::Choices::counts_number, crate::specs::Choices::other_counts, crate::specs::Choices::by_kind))]
fn other(q: usize) -> usize
    ensures { result ≡ counts_number (other_counts q) }
{
    match q {
        kinds::DOCUMENT => from_below(0, 256),
        kinds::TEXT..=kinds::INCLUDE => text(q),
        kinds::CONJUNCTION => from_below(2, 3),
        _ => UNLISTED,
    }
}

#[tactic(auto, unfolding(crate::specs::Choices::chosen_counts, crate::specs::Choices::by_ranges))]
fn counts_of(q: usize) -> usize
    ensures { result ≡ counts_number (chosen_counts q) }
{
    match q {
        kinds::GIVEN..=kinds::CONSTRAINT => paragraph(q),
        kinds::TRUE..=kinds::EXISTS => predicate(q),
        kinds::REF..=kinds::COMPREHENSION => expression(q),
        _ => other(q),
    }
}

#[tactic(auto, using(crate::proofs::ChoiceLaws::limit_cell))]
pub fn is_listed(q: usize) -> bool
    ensures { result ≡ listed q }
{
    0 < counts_of(q) / DIGIT
}

// The number of operands of the node with these words.
pub fn operand_count(w: &[u32]) -> usize
    ensures { result ≡ length w.now - 1 }
{
    w.len().saturating_sub(1)
}

#[tactic(auto, using(crate::proofs::ChoiceLaws::fewest_cell, crate::proofs::ChoiceLaws::limit_cell))]
fn count_row(q: usize, n: usize) -> bool
    ensures { result ≡ count_row q n }
{
    let counts = counts_of(q);
    counts % DIGIT <= n && n < counts / DIGIT
}

// The number n of operands is what the counts p (kinds 4 and 5) or a (kind 12) ask for.
#[tactic(auto, unfolding(reader_rules::specs::Kinds::count_by))]
fn count_by(q: usize, n: usize, p: usize, a: usize) -> bool
    requires { (p < 2 ^ 32) × (a < 2 ^ 32) }
    ensures { result ≡ count_by q n p a }
{
    match q {
        kinds::INCLUDE => {
            let from = a + BEFORE_ACTUALS;
            from <= n && (n - from) % 2 == 0 && n - from <= RENAME_IDENTIFIERS
        }
        kinds::SCHEMA..=kinds::ABBREVIATION => n == p + BESIDE_PARAMETERS,
        _ => true,
    }
}

// The operand count of a node with these words.
pub fn count_ok(w: &[u32]) -> bool
    ensures { result ≡ count_ok w.now }
{
    let q = word(w, 0);
    let n = operand_count(w);
    count_row(q, n) && count_by(q, n, word(w, 2), word(w, 3))
}
