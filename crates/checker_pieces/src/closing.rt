// A piece is closed: it has one solution, or 34. specs/Closed.antt.

ghost use Rattle.checker_pieces.specs.Closed.{Closing, Closed, Sizing, SizeIs, Wording, WordsAre};

// Has the piece of the n cells one solution? Its types are finite, as those of every piece; the test for that sets the marks.
pub fn close(a: &mut [u32], d: &[u32], n: usize) -> bool
    requires { Closing a.old d.now n }
    ensures { Closed a.old a.new d.now n result }
{
    types_solver::acyclicity::finite(a, n);
    if types_solver::openness::left_open(a, n) {
        return false;
    }
    true
}

// The size of the type of cell c, of the n of a closed piece, at most 33.
pub fn settled_size(a: &[u32], d: &[u32], n: usize, c: usize) -> usize
    requires { Sizing a.now d.now n c }
    ensures { SizeIs a.now d.now n c result }
{
    types_solver::sizes::cell_size(a, d, c)
}

// The words of the type of cell c, from `at` on in out: where they end.
pub fn settled_words(a: &[u32], d: &[u32], n: usize, c: usize, out: &mut [u32], at: usize) -> usize
    requires { Wording a.now d.now n c at }
    ensures { WordsAre a.now d.now out.old out.new n c at result }
{
    types_solver::writing::write(a, d, out, at, c)
}
