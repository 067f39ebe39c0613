// The head of a case: which call, and the bytes of its table, its trace and its room. A litmus text stands in the table's place.
ghost use Rattle.std.specs.Prelude.{◌≡◌, ◌+◌, ◌≤◌, length, IfOk};
ghost use Rattle.model.specs.Record.{value_at};
ghost use Rattle.case.specs.Parts.{Fits, head_in, length_in};

use crate::call::{Call, NoCase};
use record::bytes::{WORD, value_at};

// The most bytes of a table, a trace or a room.
pub const MOST: usize = 1048576;

#[derive(Clone, Copy)]
pub struct Head {
    pub call: Call,
    pub table: usize,
    pub trace: usize,
    pub room: usize,
}

impl Head {
    // Where in its bytes a word begins: the call, and three lengths.
    const CALL: usize = 0;

    const TABLE: usize = Self::CALL + WORD;

    const TRACE: usize = Self::TABLE + WORD;

    const ROOM: usize = Self::TRACE + WORD;

    pub const BYTES: usize = Self::ROOM + WORD;
}

fn length_at(bytes: &[u8], at: usize) -> Result<usize, NoCase>
    requires { at + WORD ≤ length bytes.now }
    ensures { result ≡ length_in MOST (value_at bytes.now at) }
{
    let n = value_at(bytes, at) as usize;
    if n <= MOST { Ok(n) } else { Err(NoCase) }
}

pub fn head_of(bytes: &[u8]) -> Result<Head, NoCase>
    requires { length bytes.now ≡ Head.BYTES }
    ensures result_value { result ≡ head_in MOST bytes.now }
    ensures fits { IfOk result (Fits MOST) }
{
    let call = Call::try_from(value_at(bytes, Head::CALL))?;
    let table = length_at(bytes, Head::TABLE)?;
    let trace = length_at(bytes, Head::TRACE)?;
    let room = length_at(bytes, Head::ROOM)?;
    Ok(Head {
        call,
        table,
        trace,
        room,
    })
}
