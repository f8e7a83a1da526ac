// An actual of an Include after its visit: 33, 39 and 34 of the set; the place of its elements' type goes to `places`.
ghost use Rattle.checker_closing.specs.Actuals.{PlacedAsk, PlacedTold, ActualAsk, ActualTold};

use crate::elements::element_type;
use crate::results::{Lined, Visit, lined_at, unlined};
use words::store;

// The actual's type is cell x.cell of x.cells.
fn placed(
    a: &mut [u32],
    d: &[u32],
    w: &mut [u32],
    at: usize,
    free: usize,
    k: usize,
    j: usize,
    places: &mut [u32],
    x: Visit,
) -> Lined
    requires { PlacedAsk a.old d.now w.old at free k j places.old x.cell x.cells x.top x.at }
    ensures { PlacedTold a.old a.new d.now w.old w.new at free k j places.old places.new x.cell x.cells x.top result }
{
    match element_type(a, d, w, x.cells, x.top, x.cell, at, x.at, free) {
        Ok(e) => {
            store(places, j, at as u32);
            lined_at(0, k, 0, e.end)
        }
        Err(number) => lined_at(number, k, 0, 0),
    }
}

// Actual number j of the Include at node k, whose visit was x.
pub fn actual(
    a: &mut [u32],
    d: &[u32],
    w: &mut [u32],
    at: usize,
    free: usize,
    k: usize,
    j: usize,
    places: &mut [u32],
    x: Visit,
) -> Lined
    requires { ActualAsk a.old d.now w.old at free k j places.old x.number x.cell x.cells x.top x.at }
    ensures { ActualTold a.old a.new d.now w.old w.new at free k j places.old places.new x.number x.place x.cell x.cells x.top result }
{
    if x.number != 0 {
        return unlined(x.number, x.place);
    }
    placed(a, d, w, at, free, k, j, places, x)
}
