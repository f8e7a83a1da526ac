// The index of a dictionary, in the work area: its entries by name, in a time that does not grow with their number (specs/Index.antt).
ghost use Rattle.std.specs.Prelude.{◌≡◌, ℕ, ◌-◌, ◌^◌, ◌<◌, ◌≤◌, List, length};
ghost use Rattle.layout.specs.Layout.{count};
ghost use Rattle.checker_rules.specs.Dictionary.{Dictionary};
ghost use Rattle.checker_dictionary.specs.Lookup.{is_entry, newest, NameFound, SchemaFound};
ghost use Rattle.checker_dictionary.specs.Index.{indexed, index_end, IndexedTo, Indexed};

use crate::lookup::{is_entry, name_of, newest_after};
use codes::classes;
use words::{clear, store, word};

// The first word of the index: that of bucket 0. Below it stand the rows of the scope.
const HEADS: usize = 512;

const BUCKETS: usize = 1024;

// The word of entry k is LINKS + k.
const LINKS: usize = HEADS + BUCKETS - 1;

// The entries that have room. An Axiom takes 4 of 1,024 nodes and brings 16 names at most; the most entries found in a document are 3,315.
const ROOM: usize = 4096;

// The word after the index.
pub const END: usize = LINKS + ROOM + 1;

// The index of no entry.
pub fn begin(w: &mut [u32])
    requires { index_end ≤ length w.old }
    ensures { (d : List ℕ) → IndexedTo d w.new 0 }
{
    clear(&mut w[HEADS..HEADS + BUCKETS]);
}

// The newest entry of a class with a name, among those in the index. A link goes to an older entry.
fn linked(d: &[u32], w: &[u32], class: usize, name: usize) -> usize
    ensures { IndexedTo d.now w.now (count d.now) → result ≡ newest (is_entry d.now class name) (indexed (count d.now)) }
{
    let mut k = word(w, HEADS + name % BUCKETS);
    // A while: it follows links.
    while 0 < k {
        if is_entry(d, class, name, k) {
            return k;
        }
        let older = word(w, LINKS + k);
        if k <= older {
            return 0;
        }
        k = older;
    }
    0
}

// The newest entry of a class with a name. Entries that have no room in the index are looked at one by one.
fn find(d: &[u32], w: &[u32], class: usize, name: usize) -> usize
    ensures { IndexedTo d.now w.now (count d.now) → result ≡ newest (is_entry d.now class name) (count d.now) }
{
    match newest_after(d, class, name, ROOM) {
        Some(k) => k,
        None => linked(d, w, class, name),
    }
}

// The newest entry of a name; 0 for none.
pub fn find_name(d: &[u32], w: &[u32], id: usize) -> usize
    ensures { (D : Dictionary) → Indexed D d.now w.now → NameFound D d.now id result }
{
    find(d, w, classes::NAME, id)
}

// The newest entry of a schema; 0 for none.
pub fn find_schema(d: &[u32], w: &[u32], name: usize) -> usize
    ensures { (D : Dictionary) → Indexed D d.now w.now → SchemaFound D d.now name result }
{
    find(d, w, classes::SCHEMA, name)
}

// Entry k, after the entries before it.
fn add(d: &[u32], w: &mut [u32], k: usize)
    requires { (1 ≤ k) × (k < 2 ^ 32) × (index_end ≤ length w.old) }
    ensures { IndexedTo d.now w.old (k - 1) → IndexedTo d.now w.new k }
{
    if ROOM < k {
        return;
    }
    let bucket = HEADS + name_of(d, k) % BUCKETS;
    let older = word(w, bucket);
    store(w, LINKS + k, older as u32);
    store(w, bucket, k as u32);
}

// The entries after the first n.
pub fn extend(d: &[u32], w: &mut [u32], n: usize)
    requires { (n < 2 ^ 32) × (index_end ≤ length w.old) }
    ensures { n ≤ count d.now → IndexedTo d.now w.old n → IndexedTo d.now w.new (count d.now) }
{
    let e = word(d, 0);
    for k in n..e {
        add(d, w, k + 1);
    }
}
