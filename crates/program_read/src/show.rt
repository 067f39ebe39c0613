// The read program: reads a text, has it read by the call, and writes the table or says what is wrong.
ghost use Rattle.std.specs.Prelude.{◌≡◌, ◌+◌, ◌≤◌, length};
ghost use Rattle.program_read.specs.Places.{InText};

use crate::refusal::{MOST as SAID, put_refusal};
use litmus::litmus::litmus;
use litmus_standing::standing::TRIED;
use model::answer::Refused;
use model::record::Record;
use model::table::{Cells, Program};
use program_files::read::{Unread, read_all};
use program_files::say::{say, say_line};
use program_files::write::write_file;
use std::io::Input;
use std::rt::Files;

// The most bytes of a text; behind them there is room to try a sample, which tells a text that is too long.
const MOST: usize = 1048576;

const ROOM: usize = MOST + TRIED;

// The bytes of the longest table: each cell is given at most once.
const TABLE: usize = (Cells::ALL + Program::PLACES) * Record::BYTES;

// A function of its own, so that no proof looks at so many zeros one by one.
fn zeros() -> [u8; ROOM]
    ensures { ROOM ≡ length result }
{
    [0; ROOM]
}

// Writes the table, and says how many records it has.
fn keep<R: Files + Print>(rt: &R, table: &[u8], records: usize) {
    match write_file(rt, b"table.rec", b"table.rec.new", table, b"") {
        Ok(()) if records == 1 => say_line(rt, "1 record"),
        Ok(()) => say_line(rt, format_args!("{records} records")),
        Err(_) => say_line(rt, "cannot write table.rec"),
    }
}

fn say_refusal(rt: &impl Print, text: &mut [u8], n: usize, refused: Refused)
    requires n_in_bounds { n + TRIED ≤ length text.old }
    requires in_text { InText refused.why refused.place n }
{
    let mut said = [0u8; SAID];
    let length = put_refusal(&mut said, text, n, refused);
    say(rt, &said[..length]);
}

// A text of n bytes, with room behind it to try samples.
fn show_reply<R: Files + Print>(rt: &R, text: &mut [u8], n: usize)
    requires { n + TRIED ≤ length text.old }
{
    let mut room = [0u8; TABLE];
    match litmus(&text[..n], &mut room) {
        Ok(k) => keep(rt, &room[..k * Record::BYTES], k),
        Err(refused) => say_refusal(rt, text, n, refused),
    }
}

pub fn show<R: Files + Input + Print>(rt: &R) {
    let mut text = zeros();
    match read_all(&mut rt.reader(), &mut text, MOST) {
        Ok(n) => show_reply(rt, &mut text, n),
        Err(Unread::TooLong) => say_line(rt, "text too long"),
        Err(Unread::Missing) => say_line(rt, "cannot read the text"),
    }
}
