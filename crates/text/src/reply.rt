// The text of a reply: the listing of document 01, and of document 02, order 3.
ghost use Rattle.std.specs.Prelude.{◌≡◌, ◌≤◌, length};
ghost use Rattle.io.specs.Counts.{IsPrefixLen};
ghost use Rattle.model.specs.Reply.{reply_of};
ghost use Rattle.text.specs.Text.{Adds};
ghost use Rattle.text.specs.Reply.{listed};

use crate::lines::{
    FIRST, MEMORY, OWN, PROCESSORS, put_finished, put_memory, put_own, put_processors, put_refused,
};
use model::answer::Answer;
use model::table::Cells;

// No reply is longer.
pub const MOST: usize = FIRST + PROCESSORS + MEMORY + OWN;

// The text of an answer and of the room after it, at the start of out. Answers its length.
pub fn put_reply(out: &mut [u8], answer: Answer, room: &[u32]) -> usize
    requires in_bounds { MOST ≤ length out.old }
    requires room_value { length room.now ≡ Cells.RESULT }
    ensures adds { Adds out.old 0 (listed (reply_of answer room.now)) out.new result }
    ensures prefix_len { IsPrefixLen result out.new }
{
    match answer {
        Ok(steps) => {
            let at = put_finished(out, steps);
            let at = put_processors(out, at, room);
            let at = put_memory(out, at, room);
            put_own(out, at, room)
        }
        Err(refused) => put_refused(out, refused),
    }
}
