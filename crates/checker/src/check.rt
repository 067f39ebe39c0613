// Checking a trace.
ghost use Rattle.std.specs.Prelude.{◌≡◌};
ghost use Rattle.model.specs.Calls.{checked};
ghost use Rattle.model.specs.Reply.{reply_of};

use crate::start;
use checker_report::reply;
use model::answer::Answer;
use table::{empty, in_place};
use trace::follow;

// Stays beside finish: they share three calls, and to take the reply as a closure would say its contract once more.
// Any table, any trace, any room. On Ok(steps), the first Cells::RESULT words of the room are the registers and memory at the end, and how many reads own buffers served; the
// others are kept. On a refusal all are kept.
pub fn check(table: &[u8], trace: &[u8], room: &mut [u32]) -> Answer
    ensures { reply_of result room.new ≡ checked table.now trace.now room.old }
{
    let mut program = empty::no_program();
    let mut m = start::at_start();
    let read = in_place::read_in_place(&mut program, &mut m, table);
    let end = follow::follow_in_place(&program, &mut m, read, trace);
    reply::reply_in_place(&program, &m, end, trace, room)
}
