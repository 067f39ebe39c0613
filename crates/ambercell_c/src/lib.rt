// The calls under the names and with the arguments that include/ambercell.h declares: a slice is a pointer and a length there.
#![tactic(auto)]

ghost use Rattle.std.specs.Prelude.{◌≡◌};
ghost use Rattle.model.specs.Calls.{checked, completed};
ghost use Rattle.litmus_model.specs.Call.{imported};
ghost use Rattle.ambercell.specs.Replies.{reply_in};

use ambercell::CAnswer;

#[unsafe(no_mangle)]
pub extern "C" fn ambercell_check(table: &[u8], trace: &[u8], room: &mut [u32]) -> CAnswer
    ensures { reply_in result room.new ≡ checked table.now trace.now room.old }
{
    ambercell::ambercell_check(table, trace, room)
}

#[unsafe(no_mangle)]
pub extern "C" fn ambercell_finish(table: &[u8], trace: &[u8], room: &mut [u8]) -> CAnswer
    ensures { reply_in result room.new ≡ completed table.now trace.now room.old }
{
    ambercell::ambercell_finish(table, trace, room)
}

#[unsafe(no_mangle)]
pub extern "C" fn ambercell_litmus(text: &[u8], room: &mut [u8]) -> CAnswer
    ensures { reply_in result room.new ≡ imported text.now room.old }
{
    ambercell::ambercell_litmus(text, room)
}
