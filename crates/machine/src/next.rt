// The next program step of a processor.
ghost use Rattle.machine.specs.Next.{MayTake, TakesNext};

use machine_read::read;
use machine_rules::program::Step;
use machine_state::state::Machine;
use machine_take::{hold, local, write};
use model::answer::Attempt;
use model::record::Record;

// Attempts the step e, which is of the kind `next`, before the program goes on. Its processor stands at the instruction i.
pub fn take_next(m: &mut Machine, i: Record, next: Step, e: Record) -> Attempt
    requires { MayTake m.old i next e }
    ensures { TakesNext m.old i e result m.new }
{
    let p = i.processor as usize;
    match next {
        Step::Read => read::read(m, i, e),
        Step::Write => write::write(m, i, e),
        Step::Fence => hold::fence(m, p),
        Step::Lock => hold::lock(m, p),
        Step::Unlock => hold::unlock(m, p),
        Step::Local => local::assign(m, i),
        // No program step.
        Step::Drain => unreachable!(),
    }
}
