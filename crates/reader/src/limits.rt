// Finding 17: the limits.
ghost use Rattle.std.specs.Prelude.{◌≡◌, true, false, ◌+◌, ◌-◌, ◌≤◌, ◌<◌};
ghost use Rattle.layout.specs.Layout.{count};
ghost use Rattle.reader_rules.specs.Nodes.{above};
ghost use Rattle.reader_rules.specs.Limits.{texts_among, is_closing, too_nested, too_wide, limit_number};
ghost use Rattle.reader_rules.specs.Reading.{lowest};
ghost use Rattle.reader_repeats.specs.Parents.{places, Parents, Linked};
ghost use Rattle.reader.specs.Counts.{reaches, counted, over, CrowdedOne, Declared, Counted, past_tree};

use crate::PLACES;
use codes::{findings, kinds, limits};
use reader_nodes::nodes::kind_at;
use reader_repeats::written::{declared_at, globals_at};
use reader_rules::Refusal;
use words::{store, word};

// A Decl, Include, Abbreviation, or node of kind 21 to 23.
#[tactic(auto, unfolding(reader_rules::specs::Limits::is_closing))]
fn is_closing(q: usize) -> bool
    ensures { result ≡ is_closing q }
{
    matches!(
        q,
        kinds::ABBREVIATION | kinds::DECL..=kinds::INCLUDE | kinds::EQUAL..=kinds::AT_MOST
    )
}

// There are at least n nodes above k.
#[tactic(auto, using(crate::proofs::CountLaws::reaches_turns))]
fn has_above(doc: &[u32], up: &[u32], k: usize, n: usize) -> bool
    requires { Parents doc.now up.now × (k < places) }
    ensures { result ≡ reaches doc.now n k }
{
    let mut a = k;
    for _ in 0..n {
        a = word(up, a);
        if a == 0 {
            return false;
        }
    }
    true
}

// The number of Texts among the first n nodes above k.
#[tactic(auto, using(crate::proofs::CountLaws::texts_turns))]
fn texts_above(doc: &[u32], up: &[u32], k: usize, n: usize) -> usize
    requires { Parents doc.now up.now × (k < places) }
    ensures { (result ≡ texts_among doc.now (above doc.now n k)) × (result ≤ n) }
{
    let mut a = k;
    let mut texts = 0;
    for _ in 0..n {
        a = word(up, a);
        if a == 0 {
            return texts;
        }
        if kind_at(doc, a) == kinds::TEXT {
            texts += 1;
        }
    }
    texts
}

// One more node below a, where it is a closing node; whether it then has more than 24.
#[tactic(auto, using(crate::proofs::CountLaws::crowd_turns))]
fn crowd_one(doc: &[u32], a: usize, below: &mut [u32]) -> bool
    requires { a < places }
    ensures { CrowdedOne doc.now a below.old below.new result }
{
    if is_closing(kind_at(doc, a)) {
        let c = word(below, a) + 1;
        if limits::BELOW < c {
            return true;
        }
        store(below, a, c as u32);
        return false;
    }
    false
}

// One more node below each closing node among the first n above k; whether one of them then has more than 24.
#[tactic(auto, using(crate::proofs::CountLaws::crowding_turns))]
fn crowd(doc: &[u32], up: &[u32], k: usize, n: usize, below: &mut [u32]) -> bool
    requires { Parents doc.now up.now × (k < places) }
    ensures { (result ≡ over doc.now (above doc.now n k) below.old) × (result ≡ false → below.new ≡ counted doc.now (above doc.now n k) below.old) }
{
    let mut a = k;
    for _ in 0..n {
        a = word(up, a);
        if a == 0 {
            return false;
        }
        if crowd_one(doc, a, below) {
            return true;
        }
    }
    false
}

// Node k is a Text inside 4 others. It is at most 12 deep.
#[tactic(auto, using(crate::proofs::CountLaws::ancestors_short))]
fn is_nested(doc: &[u32], up: &[u32], k: usize) -> bool
    requires { Parents doc.now up.now × (k < places) × (reaches doc.now 12 k ≡ false) }
    ensures { result ≡ too_nested doc.now k }
{
    kind_at(doc, k) == kinds::TEXT && limits::TEXTS < 1 + texts_above(doc, up, k, limits::DEPTH)
}

// Adds the identifiers of a Decl to those of its Text; whether they are then more than 6.
#[tactic(auto, using(crate::proofs::CountLaws::widen_turns))]
fn widen(doc: &[u32], up: &[u32], k: usize, declared: &mut [u32]) -> bool
    requires { Linked doc.now up.now × (1 ≤ k) × (k ≤ count doc.now) × Declared doc.now (k - 1) declared.old }
    ensures { (result ≡ too_wide doc.now k) × (result ≡ false → Declared doc.now k declared.new) }
{
    let q = kind_at(doc, k);
    if q == kinds::DECL {
        let t = word(up, k);
        let ids = declared_at(doc, k);
        let n = word(declared, t) + ids.len();
        if limits::DECLARED < n {
            return true;
        }
        store(declared, t, n as u32);
        return false;
    }
    false
}

// Node k is past one of the limits that go by the tree; where it is not, the tables have node k.
#[tactic(auto, using(crate::proofs::CountLaws::limit_turns))]
fn limit_at(doc: &[u32], up: &[u32], k: usize, below: &mut [u32], declared: &mut [u32]) -> bool
    requires { Linked doc.now up.now × (1 ≤ k) × (k ≤ count doc.now) × Counted doc.now (k - 1) below.old declared.old }
    ensures { (result ≡ past_tree doc.now k) × (result ≡ false → Counted doc.now k below.new declared.new) }
{
    if has_above(doc, up, k, limits::DEPTH) {
        return true;
    }
    if is_nested(doc, up, k) {
        return true;
    }
    if widen(doc, up, k, declared) {
        return true;
    }
    crowd(doc, up, k, limits::DEPTH, below)
}

// The first node past a limit.
pub fn first_past_limit(doc: &[u32], up: &[u32]) -> Result<(), Refusal>
    requires { Linked doc.now up.now }
    ensures { result ≡ lowest doc.now (limit_number doc.now) }
{
    let mut below = [0u32; PLACES];
    let mut declared = [0u32; PLACES];
    let mut globals = 0;
    let n = word(doc, 0);
    for k in 1..n + 1 {
        if limit_at(doc, up, k, &mut below, &mut declared) {
            return Err(Refusal {
                number: findings::PAST_LIMIT,
                place: k as u32,
            });
        }
        let ids = globals_at(doc, up, k);
        globals += ids.len();
        if limits::GLOBALS < globals {
            return Err(Refusal {
                number: findings::PAST_LIMIT,
                place: k as u32,
            });
        }
    }
    Ok(())
}
