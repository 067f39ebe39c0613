// Finishing a run.
ghost use Rattle.std.specs.Prelude.{◌≡◌};
ghost use Rattle.model.specs.Calls.{completed};
ghost use Rattle.model.specs.Reply.{reply_of};

use crate::start;
use finish_run::reply;
use model::answer::Answer;
use table::{empty, in_place};
use trace::follow;

// Any table, any trace, any room. On Ok(k), the first k records of the room are the steps that finish the run that the trace began, and what is past them is kept; on a refusal
// all is kept.
pub fn finish(table: &[u8], trace: &[u8], room: &mut [u8]) -> Answer
    ensures { reply_of result room.new ≡ completed table.now trace.now room.old }
{
    let mut program = empty::no_program();
    let mut m = start::at_start();
    let read = in_place::read_in_place(&mut program, &mut m, table);
    let end = follow::follow_in_place(&program, &mut m, read, trace);
    reply::finish_in_place(&program, &mut m, end, room)
}
