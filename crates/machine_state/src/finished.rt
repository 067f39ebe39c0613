// Finished: all programs at their end, all buffers empty.
ghost use Rattle.std.specs.Prelude.{◌≡◌, ◌<◌};
ghost use Rattle.machine_state.specs.Finished.{done_at, finished_in};

use crate::program;
use crate::state::Machine;
use model::table::Program;

// Processor p is at the end of its program, and all writes that it issued are drained.
pub fn is_done(program: &Program, m: &Machine, p: usize) -> bool
    requires { p < Program.PROCESSORS }
    ensures { result ≡ done_at program.now m.now p }
{
    (m.at[p] == program::count(program, p)) & (m.drained[p] == m.issued[p])
}

// Stays written out, as `finished_in` is: over a range the proof would only take it apart again.
pub fn is_finished(program: &Program, m: &Machine) -> bool
    ensures { result ≡ finished_in program.now m.now }
{
    is_done(program, m, 0)
        & is_done(program, m, 1)
        & is_done(program, m, 2)
        & is_done(program, m, 3)
}
