// The reply to a check, from a program and a machine where they lie.
ghost use Rattle.std.specs.Prelude.{◌≡◌};
ghost use Rattle.model.specs.Calls.{replied, checked_at};
ghost use Rattle.model.specs.Code.{tested_of};
ghost use Rattle.model.specs.Reply.{reply_of};
ghost use Rattle.machine.specs.View.{reached_of};
ghost use Rattle.machine.specs.Ready.{Ready};

use machine_state::finished;
use machine_state::state::Machine;
use model::answer::{Answer, Refusal, Verdict};
use model::record::Record;
use model::table::{Cells, Program};

// The answer to a check whose trace has this verdict, and leads to this machine if it passed: then 12, 13, or the result.
pub fn reply_in_place(
    program: &Program,
    m: &Machine,
    end: Verdict,
    trace: &[u8],
    room: &mut [u32],
) -> Answer
    requires { Ready program.now m.now }
    ensures { reply_of result room.new ≡ replied room.old (tested_of end (reached_of program.now m.now)) (checked_at trace.now room.old) }
{
    end?;
    let steps = trace.len() / Record::BYTES;
    if !finished::is_finished(program, m) {
        return Err(Refusal::Unfinished.at(steps));
    }
    if room.len() < Cells::RESULT {
        return Err(Refusal::RoomTooSmall.at(Cells::RESULT));
    }
    room[..Cells::ALL_REGISTERS].copy_from_slice(&m.registers);
    room[Cells::ALL_REGISTERS..Cells::ALL].copy_from_slice(&m.memory);
    room[Cells::ALL] = m.own as u32;
    Ok(steps)
}
