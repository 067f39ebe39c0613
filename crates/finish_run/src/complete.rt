// Completing a run: the steps that finish it, written into the lent room.
ghost use Rattle.std.specs.Prelude.{◌≡◌};
ghost use Rattle.model.specs.Calls.{completed_at};
ghost use Rattle.model.specs.Reply.{reply_of};
ghost use Rattle.machine.specs.View.{reached_of};
ghost use Rattle.finish_step.specs.Finishing.{Underway};
ghost use Rattle.finish_run.specs.Completing.{Completable, completed_in};

use finish_left::left;
use finish_step::finishing;
use machine_state::state::Machine;
use model::answer::{Answer, Refusal};
use model::record::Record;
use model::table::Program;
use record::bytes;

// The k steps that are left, from the start of the room on.
fn write_steps(program: &Program, m: &mut Machine, k: usize, room: &mut [u8])
    requires { Completable program.now m.old k room.old }
    ensures { room.new ≡ completed_in program.now m.old k room.old }
{
    for i in 0..k {
        let e = finishing::finishing_step(program, m);
        bytes::write_record(room, i, e);
    }
}

// The answer where the trace leads to this machine: 13, or k and its steps, which are taken on it.
pub fn complete(program: &Program, m: &mut Machine, room: &mut [u8]) -> Answer
    requires { Underway program.now m.old }
    ensures { reply_of result room.new ≡ completed_at room.old (reached_of program.now m.old) }
{
    let k = left::left(program, m);
    let needed = Record::BYTES * k;
    if room.len() < needed {
        return Err(Refusal::RoomTooSmall.at(needed));
    }
    write_steps(program, m, k, room);
    Ok(k)
}
