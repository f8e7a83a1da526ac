// The type of a set's elements, where the set is a closed piece: a Decl's set, an Include's actual.
ghost use Rattle.checker_includes.specs.Storing.{StoreAsk};
ghost use Rattle.checker_pieces.specs.Answering.{Answers};
ghost use Rattle.checker_closing.specs.Elements.{TypeKept, ClosedAsk, ClosedTold, ElementAsk, ElementTold};

use checker_includes::storing::store_type;
use checker_pieces::closing::{close, settled_size};
use checker_pieces::powers::is_power;
use codes::findings;

// The size of the elements' type, at most 33, and where its words end.
#[derive(Clone, Copy)]
pub struct Element {
    pub size: usize,
    pub end: usize,
}

// The type of cell c of the n of a closed piece. Its words stand at `at`, over those of the piece's own inner types up to `end`.
fn kept_type(
    a: &mut [u32],
    d: &[u32],
    w: &mut [u32],
    n: usize,
    c: usize,
    at: usize,
    end: usize,
    free: usize,
) -> Element
    requires { StoreAsk a.old d.now w.old n c at end free }
    ensures { TypeKept a.old a.new d.now w.old w.new n c at free 0 result.size result.end }
{
    let size = settled_size(a, d, n, c);
    let e = store_type(a, d, w, n, c, at, end, free);
    Element { size: size, end: e }
}

// The same of a piece that is to be closed: 34.
fn closed_type(
    a: &mut [u32],
    d: &[u32],
    w: &mut [u32],
    n: usize,
    c: usize,
    at: usize,
    end: usize,
    free: usize,
) -> Result<Element, u32>
    requires { ClosedAsk a.old d.now w.old n c at end free }
    ensures { Answers Element (λ number e. ClosedTold a.old a.new d.now w.old w.new n c at free number e.size e.end) result }
{
    if !close(a, d, n) {
        return Err(findings::SEVERAL);
    }
    Ok(kept_type(a, d, w, n, c, at, end, free))
}

// The type of the elements of the set whose type is cell c of n: 33 or 39 where the set's type is no power, then 34 where its piece has several solutions.
pub fn element_type(
    a: &mut [u32],
    d: &[u32],
    w: &mut [u32],
    n: usize,
    top: usize,
    c: usize,
    at: usize,
    end: usize,
    free: usize,
) -> Result<Element, u32>
    requires { ElementAsk a.old d.now w.old n top c at end free }
    ensures { Answers Element (λ number e. ElementTold a.old a.new d.now w.old w.new n top c at free number e.size e.end) result }
{
    let number = is_power(a, d, n, top, c);
    if number != 0 {
        return Err(number);
    }
    closed_type(a, d, w, n + 2, n, at, end, free)
}
