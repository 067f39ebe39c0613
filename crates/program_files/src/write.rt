// Writes a whole file.
use std::fs::OpenFile;
use std::io::{ErrorKind, Write};
use std::rt::Files;
use std::str::from_utf8;
use std::{fs, io};

// Closing a file answers nothing, so what was written is sent on to the disk first: a write that the system put off and that fails is told here.
fn put_file<R: Files>(rt: &R, name: &str, first: &[u8], rest: &[u8]) -> io::Result<()> {
    let mut file = fs::create(rt, name)?;
    file.write_all(first)?;
    file.write_all(rest)?;
    file.sync_all()
}

fn replace<R: Files>(
    rt: &R,
    name: &str,
    beside: &str,
    first: &[u8],
    rest: &[u8],
) -> io::Result<()> {
    put_file(rt, beside, first, rest)?;
    fs::rename(rt, beside, name)
}

// The file of that name becomes the two parts. They are put into a file beside it, which then takes the name: if that fails, the old file stays. A name that is no text is that of no file: the library's paths are text.
// The names stay bytes, here and in read_file: text would ask more of callers.
pub fn write_file<R: Files>(
    rt: &R,
    name: &[u8],
    beside: &[u8],
    first: &[u8],
    rest: &[u8],
) -> io::Result<()> {
    let name = from_utf8(name).map_err(|_| ErrorKind::InvalidInput)?;
    let beside = from_utf8(beside).map_err(|_| ErrorKind::InvalidInput)?;
    let replaced = replace(rt, name, beside, first, rest);
    if replaced.is_err() {
        let _ = fs::remove_file(rt, beside);
    }
    replaced
}
