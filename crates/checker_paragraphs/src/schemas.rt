// Schema expressions: a Text, an Include, a Conjunction. What one declares is a table at `free`.
ghost use Rattle.std.specs.Prelude.{◌<◌, ◌^◌};
ghost use Rattle.reader_rules.specs.Kinds.{schema_expressions};
ghost use Rattle.reader_rules.specs.Promise.{At};
ghost use Rattle.reader_rules.specs.Decode.{schema_at};
ghost use Rattle.checker_contracts.specs.Joining.{JoinAsk, Joined};
ghost use Rattle.checker_contracts.specs.Schemas.{SchemaAsk, SchemaDone};

use checker_closing::results::{Lined, lined_at};
use checker_includes::storing::keep_rows;
use checker_merging::rows_agree;
use checker_nodes::nodes::{brings, text};
use checker_signatures::tables::{TABLE, merge};
use codes::{findings, kinds, limits};
use layout::part;
use words::{span, word};

// 36 and 38 of the Conjunction at node k, whose sides' tables have m rows at free and n rows after it. The right side's types stand from `at` to `end`.
fn conjoin(
    a: &mut [u32],
    d: &[u32],
    w: &mut [u32],
    free: usize,
    m: usize,
    n: usize,
    at: usize,
    end: usize,
    k: usize,
) -> Lined
    requires { (k < 2 ^ 32) × JoinAsk a.old d.now w.old free m n at end }
    ensures { Joined a.old a.new d.now w.old w.new free m n at end k result.number result.place result.count result.at }
{
    let second = free + TABLE;
    if !rows_agree(a, d, w, free, m, second, n) {
        return lined_at(findings::CLASH, k, 0, 0);
    }
    let none = span(d, 0, 0);
    let e = keep_rows(a, d, w, free, m, second, n, none, at, end, second + TABLE);
    let r = merge(w, second, n, free, m);
    if limits::SIGNATURE < r {
        return lined_at(findings::TOO_LARGE, k, 0, 0);
    }
    lined_at(0, k, r, e)
}

// A schema expression.
pub fn schema(
    doc: &[u32],
    a: &mut [u32],
    d: &[u32],
    w: &mut [u32],
    rows: usize,
    at: usize,
    free: usize,
    k: usize,
) -> Lined
    requires { At doc.now schema_expressions k × SchemaAsk a.old d.now w.old rows at free (schema_at doc.now k) }
    ensures { SchemaDone a.old a.new d.now w.old w.new rows at free (schema_at doc.now k) result.number result.place result.count result.at }
{
    let p = part(doc, k);
    let q = word(p, 0);
    if q == kinds::TEXT {
        return text(doc, a, d, w, rows, at, free, k, false);
    }
    if q == kinds::INCLUDE {
        return brings(doc, a, d, w, rows, at, free, k);
    }
    let x = schema(doc, a, d, w, rows, at, free, word(p, 1));
    if x.number != 0 {
        return x;
    }
    let y = schema(doc, a, d, w, rows, x.at, free + TABLE, word(p, 2));
    if y.number != 0 {
        return y;
    }
    conjoin(a, d, w, free, x.count, y.count, x.at, y.at, k)
}
