// The components of a recorded binding as rows of the work area.
ghost use Rattle.checker_lookup.specs.Components.{ComponentsAsked, ComponentRows};

use checker_signatures::tables::put_row;
use types_cells::type_words::{skip, type_word};

// The binding at p: a row for each component, from base on. The number of rows.
pub fn component_rows(a: &[u32], d: &[u32], w: &mut [u32], p: usize, base: usize) -> usize
    requires { ComponentsAsked a.now d.now w.old p base }
    ensures { ComponentRows a.now d.now w.old w.new p base result }
{
    let m = type_word(a, d, p + 1);
    let mut at = p + 2;
    for j in 0..m {
        let id = type_word(a, d, at);
        put_row(w, base + 2 * j, id, at + 1);
        at = skip(a, d, at + 1);
    }
    m
}
