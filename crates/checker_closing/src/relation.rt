// A relation after the visits of its sides: the rule of its kind, then 34 of the piece, whose types nothing needs afterwards.
ghost use Rattle.checker_closing.specs.Relations.{EndAsk, EndTold, RuleAsk, RuleTold, RelationAsk, RelationTold};

use crate::leaves::related;
use crate::results::{Verdict, Visit, found, verdict_at};
use checker_pieces::closing::close;
use codes::findings;
use types_instances::wipe;

// The piece of n cells ends at node k. The words of its types stand from `at` to `end`.
fn ended(a: &mut [u32], d: &[u32], n: usize, at: usize, end: usize, k: usize) -> Verdict
    requires { EndAsk a.old d.now n end k }
    ensures { EndTold a.old a.new d.now n at end k result }
{
    if close(a, d, n) {
        wipe(a, at, end);
        return verdict_at(0, k);
    }
    verdict_at(findings::SEVERAL, k)
}

// The rule of kind q between cell c and the right side's cell.
fn ruled(a: &mut [u32], d: &[u32], at: usize, k: usize, q: usize, c: usize, y: Visit) -> Verdict
    requires { RuleAsk a.old d.now k q c y.cell y.cells y.top y.at }
    ensures { RuleTold a.old a.new d.now at k q c y.cell y.cells y.top y.at result }
{
    match related(a, d, y.cells, y.top, q, c, y.cell) {
        Ok(cells) => ended(a, d, cells, at, y.at, k),
        Err(number) => verdict_at(number, k),
    }
}

// The relation of kind q at node k. Its left side is cell c, its right side's visit was y.
pub fn relation(
    a: &mut [u32],
    d: &[u32],
    at: usize,
    k: usize,
    q: usize,
    c: usize,
    y: Visit,
) -> Verdict
    requires { RelationAsk a.old d.now k q c y.number y.cell y.cells y.top y.at }
    ensures { RelationTold a.old a.new d.now at k q c y.number y.place y.cell y.cells y.top y.at result }
{
    if y.number != 0 {
        return found(y.number, y.place);
    }
    ruled(a, d, at, k, q, c, y)
}
