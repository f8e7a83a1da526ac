// The entries of a paragraph, written into the work area, where they wait for its end: each after its length. specs/Entries.antt.
#![tactic(auto)]

pub mod parameters;

ghost use Rattle.std.specs.Prelude.{◌≡◌, List, [], ◌∷◌, ℕ, ◌+◌, ◌*◌, ◌-◌, ◌≤◌, ◌<◌, ◌^◌, length, drop};
ghost use Rattle.std.proofs.lemmas.List.Edits.{sets};
ghost use Rattle.types_rules.specs.Types.{Ty, Tys};
ghost use Rattle.types_rules.specs.Words.{part_words};
ghost use Rattle.checker_rules.specs.Dictionary.{name_entry};
ghost use Rattle.types_cells.specs.Settled.{heap, Reads};
ghost use Rattle.types_solver.specs.Written.{Wrote};
ghost use Rattle.checker_signatures.specs.Rows.{rows, identifiers_of};
ghost use Rattle.checker_dictionary.specs.Waiting.{waiting};
ghost use Rattle.checker_entries.specs.Entries.{TypesAt, name_entries, given_entries, entry_waits, schema_of, TypeAsk, TableAsk};

use checker_dictionary::lookup;
use codes::{classes, type_tags};
use types_solver::writing::put_type;
use words::{store, word};

// The words before the type of an entry that waits: its length, class, name and parameter count.
pub const HEAD: usize = 1 + lookup::HEAD;

const GIVEN: u32 = type_tags::GIVEN as u32;

const POWER: u32 = type_tags::POWER as u32;

const BINDING: u32 = type_tags::BINDING as u32;

// A given's type is three words: power at HEAD, given, the identifier.
const SECOND: usize = HEAD + 1;

const THIRD: usize = HEAD + 2;

// The words of a given's entry, and with its length before it.
const GIVEN_WORDS: usize = lookup::HEAD + 3;

const GIVEN_WAITS: usize = 1 + GIVEN_WORDS;

// The words before an entry's type.
pub fn put_head(w: &mut [u32], at: usize, len: usize, class: usize, name: usize, count: usize)
    requires { (at < 2 ^ 40) × (len < 2 ^ 32) × (class < 2 ^ 32) × (name < 2 ^ 32) × (count < 2 ^ 32) }
    ensures { w.new ≡ sets w.old at (len ∷ class ∷ name ∷ count ∷ []) }
{
    store(w, at, len as u32);
    store(w, at + 1, class as u32);
    store(w, at + 2, name as u32);
    store(w, at + 3, count as u32);
}

// The entries of a Given, whose identifiers are the words of its part from j on: where they end.
pub fn given_entries(w: &mut [u32], p: &[u32], j: usize, at: usize) -> usize
    requires { at + 7 * (length p.now - j) < 2 ^ 40 }
    ensures { Wrote w.old w.new at result (waiting (given_entries (drop j p.now))) }
{
    let mut end = at;
    for i in j..p.len() {
        let id = word(p, i);
        put_head(w, end, GIVEN_WORDS, classes::NAME, id, 0);
        store(w, end + HEAD, POWER);
        store(w, end + SECOND, GIVEN);
        store(w, end + THIRD, id as u32);
        end += GIVEN_WAITS;
    }
    end
}

// The entry of the identifier id, which has the type at p: where it ends.
#[tactic(auto, using(crate::proofs::Writing::name_end))]
pub fn name_entry(a: &[u32], d: &[u32], w: &mut [u32], id: usize, p: usize, at: usize) -> usize
    requires { (TypeAsk a.now d.now p) × (id < 2 ^ 32) × (at < 2 ^ 39) }
    ensures { (g : Ty) → Reads (heap a.now d.now) p g → Wrote w.old w.new at result (entry_waits (name_entry id 0 g)) }
{
    let e = put_type(a, d, w, at + HEAD, p);
    put_head(w, at, e - at - 1, classes::NAME, id, 0);
    e
}

// The entries of an Axiom, from the m rows at base: where they end.
pub fn name_entries(a: &[u32], d: &[u32], w: &mut [u32], base: usize, m: usize, at: usize) -> usize
    requires { TableAsk a.now d.now w.old base m at }
    ensures { (gs : Tys) → TypesAt (heap a.now d.now) (rows w.old base m) gs → Wrote w.old w.new at result (waiting (name_entries (rows w.old base m) gs)) }
{
    let mut end = at;
    for j in 0..m {
        let r = base + 2 * j;
        end = name_entry(a, d, w, word(w, r), word(w, r + 1), end);
    }
    end
}

// The identifiers and types of the m rows at base, the parts of a binding: where they end.
fn put_parts(a: &[u32], d: &[u32], w: &mut [u32], base: usize, m: usize, at: usize) -> usize
    requires { TableAsk a.now d.now w.old base m at }
    ensures { (gs : Tys) → TypesAt (heap a.now d.now) (rows w.old base m) gs → Wrote w.old w.new at result (part_words (identifiers_of (rows w.old base m)) gs) }
{
    let mut end = at;
    for j in 0..m {
        let r = base + 2 * j;
        let id = word(w, r);
        let p = word(w, r + 1);
        store(w, end, id as u32);
        end = put_type(a, d, w, end + 1, p);
    }
    end
}

// The entry of a schema with this name and parameter count, whose binding has the m rows at base: where it ends.
pub fn schema_entry(
    a: &[u32],
    d: &[u32],
    w: &mut [u32],
    base: usize,
    m: usize,
    name: usize,
    count: usize,
    at: usize,
) -> usize
    requires { (TableAsk a.now d.now w.old base m (at + 6)) × (base + 2 * m ≤ at) × (name < 2 ^ 32) × (count < 2 ^ 32) }
    ensures { (gs : Tys) → TypesAt (heap a.now d.now) (rows w.old base m) gs → Wrote w.old w.new at result (entry_waits (schema_of name count (rows w.old base m) gs)) }
{
    let first = at + HEAD;
    store(w, first, BINDING);
    store(w, first + 1, m as u32);
    let e = put_parts(a, d, w, base, m, first + 2);
    put_head(w, at, e - at - 1, classes::SCHEMA, name, count);
    e
}
