// Who moves when a run is finished.
ghost use Rattle.std.specs.Prelude.{◌≡◌};
ghost use Rattle.model.specs.Sizes.{processors};
ghost use Rattle.machine_state.specs.Finished.{done_at};
ghost use Rattle.finish_left.specs.Mover.{first_busy_from, mover_in};

use machine_state::finished;
use machine_state::state::Machine;
use model::table::Program;

// The lowest-numbered processor with a program step left or a write waiting.
fn first_busy(program: &Program, m: &Machine) -> Option<usize>
    ensures { result ≡ first_busy_from (done_at program.now m.now) 0 processors }
{
    (0..Program::PROCESSORS).find(|p| !finished::is_done(program, m, *p))
}

// The holder of the lock or, if it is free, that processor.
pub fn mover(program: &Program, m: &Machine) -> Option<usize>
    ensures { result ≡ mover_in program.now m.now }
{
    m.holder.or_else(|| first_busy(program, m))
}
