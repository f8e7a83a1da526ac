// A paragraph's entries, which wait in another area until its end.
ghost use Rattle.std.specs.Prelude.{◌≡◌, ◌^◌, ◌<◌, List, length};
ghost use Rattle.checker_rules.specs.Dictionary.{Entry, Dictionary};
ghost use Rattle.checker_dictionary.specs.Holds.{Holds};
ghost use Rattle.checker_dictionary.specs.Waiting.{Waits, Waiting, AppendedAll};

use crate::growth::append;
use words::{span, word};

// The m entries that wait at `at` are appended; false where one does not fit.
pub fn append_all(d: &mut [u32], work: &[u32], at: usize, m: usize) -> bool
    requires { (length d.old < 2 ^ 32) × Waiting work.now at m }
    ensures { (D : Dictionary) (es : List Entry) → length es ≡ m → Holds D d.old → Waits es work.now at → AppendedAll D es d.old d.new result }
{
    let mut p = at;
    for _ in 0..m {
        let len = word(work, p);
        if !append(d, span(work, p + 1, len)) {
            return false;
        }
        p += 1 + len;
    }
    true
}
