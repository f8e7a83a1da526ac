// The entries of a state, by the table of the names: all Given entries, then the others.
ghost use Rattle.std.specs.Prelude.{◌≡◌, ◌≤◌, ◌<◌, ◌^◌};
ghost use Rattle.reader_rules.specs.Findings.{scan, and_then};
ghost use Rattle.states_rules.specs.States.{is_size};
ghost use Rattle.states.specs.Table.{given_by, value_by, number_by};

use codes::{findings, limits};
use layout::part;
use reader_rules::Refusal;
use values_forms::form::is_value;
use words::word;

// A given's entry: one word, its size 0 to 20.
fn is_size(w: &[u32]) -> bool
    ensures { result ≡ is_size w.now }
{
    if w.len() == 1 {
        return word(w, 0) <= limits::ELEMENTS;
    }
    false
}

// 41 at entry k if it is a given's, 0 for none.
fn given_by(table: &[u32], state: &[u32], k: usize) -> u32
    requires { k < 2 ^ 32 }
    ensures { result ≡ given_by table.now state.now k }
{
    let g = word(table, 2 * k);
    if g == 0 {
        return 0;
    }
    if is_size(part(state, k)) {
        return 0;
    }
    findings::ILL_FORMED
}

// 41 at entry k if it is not a given's, 0 for none.
fn value_by(table: &[u32], state: &[u32], k: usize) -> u32
    requires { k < 2 ^ 32 }
    ensures { result ≡ value_by table.now state.now k }
{
    let g = word(table, 2 * k);
    if g == 0 {
        if is_value(table, part(state, k)) {
            return 0;
        }
        return findings::ILL_FORMED;
    }
    0
}

// The same of a given's entry, or of any other.
fn number_by(table: &[u32], state: &[u32], k: usize, given: bool) -> u32
    requires { k < 2 ^ 32 }
    ensures { result ≡ number_by given table.now state.now k }
{
    if given {
        return given_by(table, state, k);
    }
    value_by(table, state, k)
}

// The first ill-formed entry among the givens', or among the others.
fn first_ill(table: &[u32], state: &[u32], n: usize, given: bool) -> Result<(), Refusal>
    requires { n ≤ 1024 }
    ensures { result ≡ scan (number_by given table.now state.now) 1 n }
{
    for k in 1..n + 1 {
        let number = number_by(table, state, k, given);
        if number != 0 {
            return Err(Refusal {
                number: number,
                place: k as u32,
            });
        }
    }
    Ok(())
}

// The first entry that is ill formed, Given entries first.
pub fn first_ill_entry(table: &[u32], state: &[u32], n: usize) -> Result<(), Refusal>
    requires { n ≤ 1024 }
    ensures { result ≡ and_then (scan (given_by table.now state.now) 1 n) (scan (value_by table.now state.now) 1 n) }
{
    first_ill(table, state, n, true)?;
    first_ill(table, state, n, false)
}
