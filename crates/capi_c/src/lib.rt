// The calls of `capi` under the names that C and Rust link: the archive's symbols. The contracts are those of `capi`.
#![tactic(auto)]

ghost use Rattle.std.specs.Prelude.{◌≡◌, length};
ghost use Rattle.reader_rules.specs.Reading.{read_of};
ghost use Rattle.states_rules.specs.States.{state_check_of};
ghost use Rattle.checker_rules.specs.Check.{check_of};
ghost use Rattle.fitter_rules.specs.Fit.{fit_of};
ghost use Rattle.printer_rules.specs.Print.{print_of};
ghost use Rattle.printer_rules.specs.Buffer.{Printed};
ghost use Rattle.capi_codes.specs.Code.{code_of, code_finding};
ghost use Rattle.capi.specs.Areas.{Decided, RunDecided, CanonicalDecided};

#[unsafe(no_mangle)]
pub extern "C" fn z_read(doc: &[u32]) -> u64
    ensures { result ≡ code_of (read_of doc.now) }
{
    capi::z_read(doc)
}

#[unsafe(no_mangle)]
pub extern "C" fn z_state(doc: &[u32], state: &[u32]) -> u64
    ensures { result ≡ code_of (state_check_of doc.now state.now) }
{
    capi::z_state(doc, state)
}

#[unsafe(no_mangle)]
pub extern "C" fn z_canonical(doc: &[u32], output: &mut [u32]) -> u64
    ensures { CanonicalDecided doc.now (length output.old) result output.new }
{
    capi::z_canonical(doc, output)
}

#[unsafe(no_mangle)]
pub extern "C" fn z_check(doc: &[u32], dict: &mut [u32], work: &mut [u32]) -> u64
    ensures { Decided (check_of doc.now (length dict.old) (length work.old)) (length dict.old) (length work.old) result dict.new work.new }
{
    capi::z_check(doc, dict, work)
}

#[unsafe(no_mangle)]
pub extern "C" fn z_fit(doc: &[u32], state: &[u32], dict: &mut [u32], work: &mut [u32]) -> u64
    ensures { Decided (fit_of doc.now state.now (length dict.old) (length work.old)) (length dict.old) (length work.old) result dict.new work.new }
{
    capi::z_fit(doc, state, dict, work)
}

#[unsafe(no_mangle)]
pub extern "C" fn z_run(doc: &[u32], state: &[u32], work: &mut [u32]) -> u64
    ensures { RunDecided doc.now state.now work.old work.new result }
{
    capi::z_run(doc, state, work)
}

#[unsafe(no_mangle)]
pub extern "C" fn z_print(finding: u64, dict: &[u32], out: &mut [u8]) -> usize
    ensures { Printed (print_of (code_finding finding) dict.now) (length out.old) result out.new }
{
    capi::z_print(finding, dict, out)
}
