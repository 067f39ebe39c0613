// The reply to a finish.
ghost use Rattle.std.specs.Prelude.{◌≡◌, Ok};
ghost use Rattle.model.specs.Calls.{replied, completed_at};
ghost use Rattle.model.specs.Code.{tested_of};
ghost use Rattle.model.specs.Reply.{reply_of};
ghost use Rattle.machine.specs.View.{reached_of};
ghost use Rattle.finish_step.specs.Finishing.{Underway};

use crate::complete;
use machine_state::state::Machine;
use model::answer::{Answer, Verdict};
use model::table::Program;

// The answer to a finish whose trace has this verdict, and leads to this machine if it passed: the steps that are left are taken on it.
pub fn finish_in_place(program: &Program, m: &mut Machine, end: Verdict, room: &mut [u8]) -> Answer
    requires { end ≡ Ok tt → Underway program.now m.old }
    ensures { reply_of result room.new ≡ replied room.old
        (tested_of end (reached_of program.now m.old))
        (completed_at room.old) }
{
    end?;
    complete::complete(program, m, room)
}
