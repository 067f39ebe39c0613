// Reading a litmus text.
ghost use Rattle.std.specs.Prelude.{◌≡◌};
ghost use Rattle.model.specs.Reply.{reply_of};
ghost use Rattle.litmus_model.specs.Call.{imported};

use crate::records::tabled;
use litmus_reader::read::read_text;
use litmus_reader::records::Records;
use model::answer::Answer;

// Any text, any room. On Ok(n), the first n records of the room are the table that the text gives, and what is past them is kept; on a refusal all is kept.
pub fn litmus(text: &[u8], room: &mut [u8]) -> Answer
    ensures { reply_of result room.new ≡ imported text.now room.old }
{
    let mut records = Records::new();
    read_text(text, &mut records)?;
    tabled(&records, room)
}
