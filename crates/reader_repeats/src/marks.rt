// Words that stand twice: by tables of marks, and by comparison.
ghost use Rattle.std.specs.Prelude.{◌≡◌, true};
ghost use Rattle.reader_repeats.specs.Marks.{is_free, with_mark, unmarked, marked, distinct, shares};

// The marks of a place, a bit each.
pub const BITS: usize = 8;

// Marks i; whether it had no mark before.
#[tactic(auto, using(crate::proofs::BitLaws::mark_turns))]
fn mark_one(seen: &mut [u8], i: usize) -> bool
    ensures { (result ≡ is_free seen.old i) × (seen.new ≡ with_mark seen.old i) }
{
    let at = i / BITS;
    let k = (i % BITS) as u8;
    if at < seen.len() {
        let old = seen[at];
        seen[at] = old | (1u8 << k);
        return (old >> k) % 2 == 0;
    }
    true
}

// Marks the words; whether none of them had a mark before, or stands twice.
#[tactic(auto, using(crate::proofs::MarkLaws::unmarked_turns))]
pub fn mark_new(ids: &[u32], seen: &mut [u8]) -> bool
    ensures { (result ≡ unmarked ids.now seen.old) × (result ≡ true → seen.new ≡ marked ids.now seen.old) }
{
    for id in ids {
        if !mark_one(seen, *id as usize) {
            return false;
        }
    }
    true
}

// No word stands twice.
#[tactic(auto, using(crate::proofs::MarkLaws::distinct_turns))]
pub fn are_distinct(xs: &[u32]) -> bool
    ensures { result ≡ distinct xs.now }
{
    for (i, x) in xs.iter().enumerate() {
        if xs[i + 1..].contains(x) {
            return false;
        }
    }
    true
}

// One of the words ys stands among the words xs.
#[tactic(auto, using(crate::proofs::MarkLaws::shares_turns))]
pub fn share(xs: &[u32], ys: &[u32]) -> bool
    ensures { result ≡ shares xs.now ys.now }
{
    for y in ys {
        if xs.contains(y) {
            return true;
        }
    }
    false
}
