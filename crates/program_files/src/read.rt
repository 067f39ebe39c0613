// Reads a whole file of at most so many bytes: of a record file at most MOST.
ghost use Rattle.std.specs.Prelude.{◌≡◌, ◌≤◌, ◌<◌, length, IfOk, MatchResult, Some};
ghost use Rattle.program_files.specs.declared.read.Unread.TheVariants.{Missing};
ghost use Rattle.program_files.specs.Files.{said, Within, whole_or};

use std::error::Error;
use std::io::Read;
use std::rt::Files;
use std::str::from_utf8;
use std::{fmt, fs};

pub const MOST: usize = 32768;

// One byte more tells a file that is too long.
pub const ROOM: usize = MOST + 1;

// Why a file is not read whole.
#[derive(Clone, Copy, Debug, PartialEq, Eq)]
pub enum Unread {
    TooLong,
    // So counts one that can't be read to its end, as a directory.
    Missing,
}

impl fmt::Display for Unread {
    ghost output = { λ u. Some (said u) };

    fn fmt<W: fmt::Write>(&self, f: &mut fmt::Formatter<W>) -> fmt::Result {
        f.write_str(match self {
            Unread::TooLong => "file too long",
            Unread::Missing => "no file",
        })
    }
}

impl Error for Unread {}

// A read failed when so many bytes had come.
#[derive(Clone, Copy, Debug, PartialEq, Eq)]
pub struct Failed {
    pub came: usize,
}

impl From<Failed> for Unread {
    ghost from_gives = { λ _ unread. unread ≡ Missing };

    fn from(_failed: Failed) -> Self {
        Self::Missing
    }
}

// Reads until the buffer is full or the input ends. Answers how many bytes came. Stays a while: how far a read came is known after it only.
pub fn fill<R: Read>(input: &mut R, bytes: &mut [u8]) -> Result<usize, Failed>
    ensures { MatchResult result (λ n. n ≤ length bytes.old) (λ failed. failed.came < length bytes.old) }
{
    let mut n = 0;
    while n < bytes.len() {
        match input.read(&mut bytes[n..]) {
            Ok(0) => break,
            Ok(more) => n += more,
            Err(_) => return Err(Failed { came: n }),
        }
    }
    Ok(n)
}

// n bytes came before the end of the file, or of the buffer.
fn whole(n: usize, most: usize) -> Result<usize, Unread>
    ensures value { result ≡ whole_or most n }
    ensures within { Within result most }
{
    if n <= most {
        Ok(n)
    } else {
        Err(Unread::TooLong)
    }
}

// The buffer is longer than the most that a file may have: what comes behind that tells a file that is too long.
pub fn read_all<R: Read>(input: &mut R, bytes: &mut [u8], most: usize) -> Result<usize, Unread>
    ensures { Within result most }
{
    whole(fill(input, bytes)?, most)
}

// A name that is no text is that of no file: the library's paths are text.
fn open_read<R: Files>(rt: &R, name: &[u8]) -> Option<R::File> {
    fs::open(rt, from_utf8(name).ok()?).ok()
}

// Reads the file of that name in the current folder.
pub fn read_file<R: Files>(rt: &R, name: &[u8], bytes: &mut [u8]) -> Result<usize, Unread>
    requires { length bytes.old ≡ ROOM }
    ensures { Within result MOST }
{
    let mut file = open_read(rt, name).ok_or(Unread::Missing)?;
    read_all(&mut file, bytes, MOST)
}
