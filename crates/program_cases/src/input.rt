// What is read of a case, and where it is put.
ghost use Rattle.std.specs.Prelude.{◌≡◌, ◌≤◌, length, IfOk, IfSome, Some};
ghost use Rattle.case.specs.Parts.{Fits};
ghost use Rattle.program_cases.specs.declared.input.Broken.TheVariants.{NoCase};
ghost use Rattle.program_cases.specs.Complaints.{said};

use case::call::NoCase;
use case::head::{Head, MOST, head_of};
use program_files::read::fill;
use record::bytes::WORD;
use std::error::Error;
use std::fmt;
use std::io::Read;

// The words of a room.
pub const WORDS: usize = MOST / WORD;

// The parts of a case, and the words in which a check has its room.
#[derive(Drop)]
pub struct Parts {
    pub table: [u8; MOST],
    pub trace: [u8; MOST],
    pub room: [u8; MOST],
    pub words: [u32; WORDS],
}

// Why the answers end before the input does.
#[derive(Clone, Copy, Debug, PartialEq, Eq)]
pub enum Broken {
    Cut,
    NoCase(NoCase),
}

impl From<NoCase> for Broken {
    ghost from_gives = { λ none broken. broken ≡ NoCase none };

    fn from(none: NoCase) -> Self {
        Self::NoCase(none)
    }
}

impl fmt::Display for Broken {
    ghost output = { λ broken. Some (said broken) };

    fn fmt<W: fmt::Write>(&self, f: &mut fmt::Formatter<W>) -> fmt::Result {
        match self {
            Broken::Cut => f.write_str("the input ends inside a case"),
            Broken::NoCase(none) => none.fmt(f),
        }
    }
}

impl Error for Broken {}

// How many bytes of the input came before its end, or before a read failed.
fn read_full<I: Read>(input: &mut I, bytes: &mut [u8]) -> usize
    ensures { result ≤ length bytes.old }
{
    match fill(input, bytes) {
        Ok(n) => n,
        Err(failed) => failed.came,
    }
}

// Reads the next bytes of the input to a part.
pub fn read_part<I: Read>(input: &mut I, part: &mut [u8]) -> Result<(), Broken> {
    if read_full(input, part) < part.len() {
        return Err(Broken::Cut);
    }
    Ok(())
}

// The head of the next case, if there is one.
pub fn read_head<I: Read>(input: &mut I) -> Result<Option<Head>, Broken>
    ensures { IfOk result (λ next. IfSome next (Fits MOST)) }
{
    let mut bytes = [0u8; Head::BYTES];
    let came = read_full(input, &mut bytes);
    if came == 0 {
        return Ok(None);
    }
    if came < Head::BYTES {
        return Err(Broken::Cut);
    }
    Ok(Some(head_of(&bytes)?))
}

// The next case, if there is one: its head, and its parts at the start of these.
pub fn read_case<I: Read>(input: &mut I, parts: &mut Parts) -> Result<Option<Head>, Broken>
    ensures { IfOk result (λ next. IfSome next (Fits MOST)) }
{
    let Some(head) = read_head(input)? else {
        return Ok(None);
    };
    read_part(input, &mut parts.table[..head.table])?;
    read_part(input, &mut parts.trace[..head.trace])?;
    read_part(input, &mut parts.room[..head.room])?;
    Ok(Some(head))
}
