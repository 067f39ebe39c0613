// The calls of cases, by number, and what is no case.
ghost use Rattle.std.specs.Prelude.{◌≡◌, Some};
ghost use Rattle.case.specs.Calls.{call_in, number_of, said_of_none};

use std::error::Error;
use std::fmt;

#[derive(Clone, Copy, Debug, PartialEq, Eq)]
pub enum Call {
    Check,
    Finish,
    Litmus,
}

// A call with another number, or a part that is too long.
#[derive(Clone, Copy, Debug, PartialEq, Eq)]
pub struct NoCase;

impl TryFrom<u32> for Call {
    type Error = NoCase;

    ghost try_from_gives = { λ n r. r ≡ call_in n };

    fn try_from(number: u32) -> Result<Self, NoCase> {
        match number {
            0 => Ok(Call::Check),
            1 => Ok(Call::Finish),
            2 => Ok(Call::Litmus),
            _ => Err(NoCase),
        }
    }
}

impl From<Call> for u32 {
    ghost from_gives = { λ call n. n ≡ number_of call };

    fn from(call: Call) -> u32 {
        match call {
            Call::Check => 0,
            Call::Finish => 1,
            Call::Litmus => 2,
        }
    }
}

impl fmt::Display for NoCase {
    ghost output = { λ _. Some said_of_none };

    fn fmt<W: fmt::Write>(&self, f: &mut fmt::Formatter<W>) -> fmt::Result {
        f.write_str("a call is 0, 1 or 2, and a table, a trace or a room has at most 1048576 bytes")
    }
}

impl Error for NoCase {}
