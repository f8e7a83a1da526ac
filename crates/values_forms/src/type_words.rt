// How far a type's words reach, for any words.
ghost use Rattle.std.specs.Prelude.{◌≡◌, ◌+◌, ◌≤◌, length};
ghost use Rattle.values.specs.TypeWords.{clip, count_of, former_of, types_end, type_length};

use codes::type_tags;
use values::shapes::Former;
use words::{from, word};

fn clip(n: usize, most: usize) -> usize
    ensures { (result ≡ clip n most) × (result ≤ most) }
{
    if n <= most {
        return n;
    }
    most
}

fn count_of(w: &[u32]) -> usize
    ensures { (result ≡ count_of w.now) × (result ≤ length w.now) }
{
    let n = word(w, 1);
    if n <= w.len() {
        return n;
    }
    0
}

fn former_of(w: &[u32]) -> Former
    ensures { result ≡ former_of w.now }
{
    let tag = word(w, 0);
    if tag == type_tags::GIVEN {
        return Former::Plain(2);
    }
    if tag == type_tags::POWER {
        return Former::Group {
            start: 1,
            skip: 0,
            n: 1,
        };
    }
    if tag == type_tags::PRODUCT {
        let n = count_of(w);
        return Former::Group {
            start: 2,
            skip: 0,
            n: n,
        };
    }
    if tag == type_tags::BINDING {
        let n = count_of(w);
        return Former::Group {
            start: 2,
            skip: 1,
            n: n,
        };
    }
    if tag == type_tags::PARAMETER {
        return Former::Plain(2);
    }
    Former::Plain(1)
}

// The place after n types from a place on, with `skip` words before each.
#[cycle(type_length_types_end)]
fn types_end(w: &[u32], start: usize, skip: usize, n: usize, depth: usize) -> usize
    requires { (start ≤ 2) × (skip ≤ 1) × (n ≤ length w.now + 1) }
    ensures { result ≡ types_end (type_length depth) skip n w.now start }
{
    let mut at = start;
    for _i in 0..n {
        at += skip;
        at += type_length(from(w, at), depth);
    }
    at
}

// The words of the type at the beginning of w, at most `depth` levels deep.
#[cycle(type_length_types_end)]
pub fn type_length(w: &[u32], depth: usize) -> usize
    ensures { (result ≡ type_length depth w.now) × (result ≤ length w.now) }
{
    if depth == 0 {
        return 0;
    }
    let f = former_of(w);
    match f {
        Former::Plain(n) => clip(n, w.len()),
        Former::Group { start, skip, n } => clip(types_end(w, start, skip, n, depth - 1), w.len()),
    }
}
