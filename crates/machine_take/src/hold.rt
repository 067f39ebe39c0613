// A fence, a lock, an unlock, attempted: none uses a location or a value.
ghost use Rattle.std.specs.Prelude.{◌≡◌, true, ◌<◌};
ghost use Rattle.machine_rules.specs.Guards.{nobody};
ghost use Rattle.machine_rules.specs.Steps.{code_of};
ghost use Rattle.machine_rules.specs.declared.program.Step.TheVariants.{Fence, Lock, Unlock};
ghost use Rattle.machine_take.specs.Takes.{empty_in, attempted, Holds};

use machine_rules::guards;
use machine_state::state::Machine;
use model::answer::{Attempt, Condition};
use model::table::Program;

// Nothing of processor p waits.
fn is_empty(m: &Machine, p: usize) -> bool
    requires { p < Program.PROCESSORS }
    ensures { result ≡ empty_in m.now p }
{
    m.drained[p] == m.issued[p]
}

pub fn fence(m: &Machine, p: usize) -> Attempt
    requires { p < Program.PROCESSORS }
    ensures { result ≡ attempted (code_of Fence) m.now p true }
{
    if !is_empty(m, p) {
        return Err(Condition::BufferNotEmpty);
    }
    Ok(())
}

pub fn lock(m: &mut Machine, p: usize) -> Attempt
    requires { p < Program.PROCESSORS }
    ensures { Holds (code_of Lock) (Some p) m.old p result m.new }
{
    if guards::blocked(m.holder, p) {
        return Err(Condition::LockHeld);
    }
    if !is_empty(m, p) {
        return Err(Condition::BufferNotEmpty);
    }
    m.holder = Some(p);
    Ok(())
}

// Who comes to an unlock holds the lock.
pub fn unlock(m: &mut Machine, p: usize) -> Attempt
    requires { p < Program.PROCESSORS }
    ensures { Holds (code_of Unlock) nobody m.old p result m.new }
{
    if !is_empty(m, p) {
        return Err(Condition::BufferNotEmpty);
    }
    m.holder = None;
    Ok(())
}
