// A write, attempted.
ghost use Rattle.machine_take.specs.Takes.{MayWrite, Writes};

use machine_rules::guards;
use machine_state::state::Machine;
use model::answer::{Attempt, Condition};
use model::record::Record;

// A write of what the instruction issues.
pub fn write(m: &mut Machine, i: Record, e: Record) -> Attempt
    requires { MayWrite m.old i }
    ensures { Writes m.old i e result m.new }
{
    let c = machine_store::register(i);
    let issued = guards::issued_by(
        i.kind,
        i.value,
        m.kept[i.processor as usize],
        m.registers[c],
    );
    let right = (e.location == i.location) & (e.value == issued);
    if !right {
        return Err(Condition::NotRight);
    }
    machine_store::exchange(m, i, c);
    machine_store::issue(m, i, e);
    Ok(())
}
