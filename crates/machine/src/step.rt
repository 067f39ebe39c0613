// One step.
ghost use Rattle.model.specs.Fields.{Proper};
ghost use Rattle.model.specs.Kinds.{step_uses};
ghost use Rattle.machine.specs.Ready.{Ready, Steps};

use crate::next;
use machine_drain::drain;
use machine_rules::program;
use machine_rules::program::Step;
use machine_state::program as programs;
use machine_state::state::Machine;
use model::answer::{Attempt, Condition};
use model::record::Record;
use model::table::Program;

// Program and machine stay two arguments, here and above: the one is lent shared while the other changes.
// Attempts the step e on a machine where it lies. If it is turned down, nothing changes.
pub fn step(program: &Program, m: &mut Machine, e: Record) -> Attempt
    requires { Ready program.now m.old × Proper step_uses e }
    ensures { Steps program.now m.old e result m.new }
{
    if e.kind == u8::from(Step::Drain) {
        return drain::drain(m, e);
    }
    let p = e.processor as usize;
    let a = m.at[p];
    if programs::count(program, p) <= a {
        return Err(Condition::AnotherKind);
    }
    let i = programs::instruction(program, p, a);
    let Some(next) = program::next_step(i.kind, m.phase[p]) else {
        return Err(Condition::AnotherKind);
    };
    if u8::from(next) != e.kind {
        return Err(Condition::AnotherKind);
    }
    // Stays a match: the edit `refused_step_taken` answers the second arm as taken, and a `?` has none.
    match next::take_next(m, i, next, e) {
        Ok(()) => {
            machine_store::advance(m, i);
            Ok(())
        }
        Err(why) => Err(why),
    }
}
