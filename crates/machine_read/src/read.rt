// A read, attempted.
ghost use Rattle.machine_read.specs.Reads.{MayRead, Reads};

use machine_rules::{guards, waiting};
use machine_state::state::Machine;
use model::answer::{Attempt, Condition};
use model::record::Record;

// A read of what the processor sees.
pub fn read(m: &mut Machine, i: Record, e: Record) -> Attempt
    requires { MayRead m.old i }
    ensures { Reads m.old i e result m.new }
{
    let p = i.processor as usize;
    let held = guards::blocked(m.holder, p);
    let n = m.issued[p];
    let d = m.drained[p];
    let from = waiting::origin(&m.locations, n, d, p, i.location);
    let seen = waiting::value(&m.values, d, p, from, m.memory[i.location as usize]);
    let right = (e.location == i.location) & (e.value == seen);
    if held {
        return Err(Condition::LockHeld);
    }
    if !right {
        return Err(Condition::NotRight);
    }
    machine_store::receive(m, i, machine_store::register(i), e.value);
    machine_store::count(m, from);
    Ok(())
}
