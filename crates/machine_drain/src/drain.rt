// A drain, attempted.
ghost use Rattle.machine_drain.specs.Drains.{MayDrain, Drains};

use machine_rules::guards;
use machine_state::state::Machine;
use model::answer::{Attempt, Condition};
use model::record::Record;
use model::table::Program;

// The drain of the oldest of the processor's writes.
pub fn drain(m: &mut Machine, e: Record) -> Attempt
    requires { MayDrain m.old e }
    ensures { Drains m.old e result m.new }
{
    let p = e.processor as usize;
    let n = m.issued[p];
    let d = m.drained[p];
    if d == n {
        return Err(Condition::NothingWaits);
    }
    let held = guards::blocked(m.holder, p);
    let place = Program::INSTRUCTIONS * p + d;
    let right = (e.location == m.locations[place]) & (e.value == m.values[place]);
    if held {
        return Err(Condition::LockHeld);
    }
    if !right {
        return Err(Condition::NotRight);
    }
    machine_store::drain(m, e);
    Ok(())
}
