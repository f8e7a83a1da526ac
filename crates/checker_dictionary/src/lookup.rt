// Entries of a dictionary by their names, the newest first. An entry is known by its number, from 1; 0 stands for none.
ghost use Rattle.std.specs.Prelude.{◌≡◌, ◌-◌, ◌^◌, ◌<◌, MatchOption};
ghost use Rattle.layout.specs.Layout.{count, offset_at};
ghost use Rattle.checker_rules.specs.Dictionary.{Dictionary};
ghost use Rattle.checker_dictionary.specs.Holds.{Holds};
ghost use Rattle.checker_dictionary.specs.Lookup.{name_at, parameters_at, type_at, is_entry, newest, NameFound, SchemaFound};

use codes::classes;
use words::word;

// The words of an entry before its type: class, name, parameter count.
pub const HEAD: usize = 3;

// The offset of entry k.
fn offset(d: &[u32], k: usize) -> usize
    ensures { (result ≡ offset_at d.now k) × (result < 2 ^ 32) }
{
    if d.len() <= k {
        return 0;
    }
    if k == 0 {
        return word(d, 0);
    }
    word(d, 2 * k - 1)
}

// The name of entry k.
pub fn name_of(d: &[u32], k: usize) -> usize
    ensures { (result ≡ name_at d.now k) × (result < 2 ^ 32) }
{
    word(d, offset(d, k) + 1)
}

// The parameter count of entry k.
pub fn parameters_of(d: &[u32], k: usize) -> usize
    ensures { (result ≡ parameters_at d.now k) × (result < 2 ^ 32) }
{
    word(d, offset(d, k) + 2)
}

// The place of the type of entry k.
pub fn type_place(d: &[u32], k: usize) -> usize
    ensures { (result ≡ type_at d.now k) × (result < 2 ^ 33) }
{
    offset(d, k) + HEAD
}

// Whether entry k has this class and name.
pub fn is_entry(d: &[u32], class: usize, name: usize, k: usize) -> bool
    ensures { result ≡ is_entry d.now class name k }
{
    let at = offset(d, k);
    if class != word(d, at) {
        return false;
    }
    name == word(d, at + 1)
}

// The newest entry of a class with a name, if one of the entries after the first `low` is one.
pub fn newest_after(d: &[u32], class: usize, name: usize, low: usize) -> Option<usize>
    ensures { let f = is_entry d.now class name in let n = count d.now in MatchOption result (newest f n ≡ newest f (n - (n - low))) (λ k. (k ≡ newest f n) × (low < k)) }
{
    for k in (low..word(d, 0)).rev() {
        if is_entry(d, class, name, k + 1) {
            return Some(k + 1);
        }
    }
    None
}

// The newest entry of a class with a name.
fn newest(d: &[u32], class: usize, name: usize) -> usize
    ensures { result ≡ newest (is_entry d.now class name) (count d.now) }
{
    newest_after(d, class, name, 0).unwrap_or(0)
}

// The newest entry of a name.
pub fn entry_of_name(d: &[u32], id: usize) -> usize
    ensures { (D : Dictionary) → Holds D d.now → NameFound D d.now id result }
{
    newest(d, classes::NAME, id)
}

// The newest entry of a schema.
pub fn entry_of_schema(d: &[u32], name: usize) -> usize
    ensures { (D : Dictionary) → Holds D d.now → SchemaFound D d.now name result }
{
    newest(d, classes::SCHEMA, name)
}
