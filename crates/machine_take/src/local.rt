// A local step, attempted.
ghost use Rattle.machine_store.specs.Stores.{Own};
ghost use Rattle.machine_take.specs.Takes.{Assigns};

use machine_state::state::Machine;
use model::answer::Attempt;
use model::record::Record;

// A local step: nothing stops it.
pub fn assign(m: &mut Machine, i: Record) -> Attempt
    requires { Own i }
    ensures { Assigns m.old i result m.new }
{
    machine_store::assign(m, i);
    Ok(())
}
