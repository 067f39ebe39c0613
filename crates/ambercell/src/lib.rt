// The calls for C, C++ and Rust, which ambercell_c exports as include/ambercell.h declares them.
#![tactic(auto)]

ghost use Rattle.std.specs.Prelude.{◌≡◌};
ghost use Rattle.model.specs.Calls.{checked, completed};
ghost use Rattle.litmus_model.specs.Call.{imported};
ghost use Rattle.ambercell.specs.Replies.{reply_in, Tells};

use checker::{check, finish};
use model::answer::Answer;

// Document 01's number and place.
#[repr(C)]
#[derive(Clone, Copy)]
pub struct CAnswer {
    pub number: u64,
    pub place: u64,
}

impl From<Answer> for CAnswer {
    ghost from_gives = { λ answer c. Tells c answer };

    fn from(answer: Answer) -> CAnswer {
        match answer {
            Ok(place) => CAnswer {
                number: 0,
                place: place as u64,
            },
            Err(refused) => CAnswer {
                number: u64::from(refused.why),
                place: refused.place as u64,
            },
        }
    }
}

pub fn ambercell_check(table: &[u8], trace: &[u8], room: &mut [u32]) -> CAnswer
    ensures { reply_in result room.new ≡ checked table.now trace.now room.old }
{
    CAnswer::from(check::check(table, trace, room))
}

pub fn ambercell_finish(table: &[u8], trace: &[u8], room: &mut [u8]) -> CAnswer
    ensures { reply_in result room.new ≡ completed table.now trace.now room.old }
{
    CAnswer::from(finish::finish(table, trace, room))
}

pub fn ambercell_litmus(text: &[u8], room: &mut [u8]) -> CAnswer
    ensures { reply_in result room.new ≡ imported text.now room.old }
{
    CAnswer::from(litmus::litmus::litmus(text, room))
}
