// The text of a reply to finishing: the steps that were added, or the refusal.
ghost use Rattle.std.specs.Prelude.{◌≤◌, length};
ghost use Rattle.io.specs.Counts.{IsPrefixLen};
ghost use Rattle.model.specs.Reply.{reply_of};
ghost use Rattle.text.specs.Text.{Adds};
ghost use Rattle.text_steps.specs.Steps.{shown, InRoom};

use crate::steps::{LINE, put_steps};
use model::answer::Answer;
use model::record::Record;
use model::table::Program;
use text::lines::put_refused;

// The room of the longest completion, in bytes.
pub const ROOM: usize = Program::LONGEST * Record::BYTES;

// No text of one is longer.
pub const MOST: usize = Program::LONGEST * LINE;

// The text of an answer and of the room after it, at the start of out. Answers its length.
pub fn put_added(out: &mut [u8], answer: Answer, room: &[u8]) -> usize
    requires in_bounds { MOST ≤ length out.old }
    requires room_len_bound { length room.now ≤ ROOM }
    requires in_room { InRoom answer (length room.now) }
    ensures adds { Adds out.old 0 (shown (reply_of answer room.now)) out.new result }
    ensures prefix_len { IsPrefixLen result out.new }
{
    match answer {
        Ok(k) => put_steps(out, room, k),
        Err(refused) => put_refused(out, refused),
    }
}
