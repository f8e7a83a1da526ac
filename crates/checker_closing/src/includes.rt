// An Include by its schema: 31 and 32 before its actuals, 37 after them.
ghost use Rattle.std.specs.Prelude.{ℕ, ◌+◌, ◌<◌, ◌^◌, get_or};
ghost use Rattle.checker_pieces.specs.Answering.{Answers};
ghost use Rattle.checker_closing.specs.Schemas.{SchemaLooked, RenameAsk, RowsRenamed, NamedAsk, NamedTold};

use crate::results::{Lined, lined_at};
use checker_dictionary::index::find_schema;
use checker_dictionary::lookup::{parameters_of, type_place};
use checker_lookup::components::component_rows;
use checker_signatures::includes::bring;
use checker_signatures::tables::HALF;
use codes::findings;
use types_cells::area::DICTIONARY;
use words::word;

// The words of an Include before its actuals.
pub const FIRST_ACTUAL: usize = 4;

// The schema of the Include with the part p, by its name and the number of its parameters: where its type stands in the dictionary. Otherwise 31 or 32.
pub fn schema_of(d: &[u32], w: &[u32], p: &[u32]) -> Result<usize, u32>
    ensures { Answers ℕ (SchemaLooked d.now w.now (get_or p.now 1 0) (get_or p.now 3 0)) result }
{
    let e = find_schema(d, w, word(p, 1));
    if e == 0 {
        return Err(findings::UNKNOWN_NAME);
    }
    if parameters_of(d, e) != word(p, 3) {
        return Err(findings::WRONG_COUNT);
    }
    Ok(type_place(d, e))
}

// The m rows of a schema's components at free + HALF, with the stroke and the renames of the part p, as a table at free.
fn rename_rows(w: &mut [u32], free: usize, m: usize, k: usize, p: &[u32], end: usize) -> Lined
    requires { (k < 2 ^ 32) × RenameAsk w.old free m p.now }
    ensures { RowsRenamed w.old w.new free m p.now k end result.number result.place result.count result.at }
{
    let Some(count) = bring(
        w,
        free + HALF,
        m,
        free,
        word(p, 2),
        p,
        word(p, 3) + FIRST_ACTUAL,
    ) else {
        return lined_at(findings::BAD_RENAME, k, 0, 0);
    };
    lined_at(0, k, count, end)
}

// The Include at node k with the part p, whose schema's type stands at `schema` in the dictionary: x is what its actuals returned.
pub fn named(
    a: &[u32],
    d: &[u32],
    w: &mut [u32],
    free: usize,
    k: usize,
    p: &[u32],
    schema: usize,
    x: Lined,
) -> Lined
    requires { (k < 2 ^ 32) × (schema < 2 ^ 33) × NamedAsk a.now d.now w.old free p.now schema x.number }
    ensures { NamedTold a.now d.now w.old w.new free p.now schema k x.number x.place x.at result.number result.place result.count result.at }
{
    if x.number != 0 {
        return x;
    }
    let m = component_rows(a, d, w, DICTIONARY + schema, free + HALF);
    rename_rows(w, free, m, k, p, x.at)
}
