// The lines of a listing.
ghost use Rattle.std.specs.Prelude.{◌≡◌, ◌+◌, ◌≤◌, ◌<◌, length};
ghost use Rattle.model.specs.Reply.{number_of};
ghost use Rattle.text.specs.Text.{Adds};
ghost use Rattle.text.specs.Reply.{finished_line, processor_line, processor_lines, memory_line, own_line, refused_line};

use crate::put::{DIGITS, LINE_END, SPACED, put_byte, put_number, put_numbers, put_word};
use model::answer::Refused;
use model::table::{Cells, Program};

// No first line is longer: two words and two numbers at most.
pub const FIRST: usize = 64;

// Nor that of a processor: its letter, its number, its registers and the line's end.
const PROCESSOR: usize = DIGITS + SPACED * Cells::REGISTERS + 2;

pub const PROCESSORS: usize = PROCESSOR * Program::PROCESSORS;

// Nor that of memory: its letter, the locations and the line's end.
pub const MEMORY: usize = SPACED * Cells::LOCATIONS + 2;

// Nor that of reads from own buffers: its word of four bytes, how many they are and the line's end.
pub const OWN: usize = DIGITS + 5;

pub fn put_refused(out: &mut [u8], refused: Refused) -> usize
    requires { FIRST ≤ length out.old }
    ensures adds { Adds out.old 0 (refused_line (number_of refused.why) refused.place) out.new result }
    ensures upper_bound { result ≤ FIRST }
{
    let at = put_word(out, 0, b"refused ");
    let at = put_number(out, at, u64::from(refused.why));
    let at = put_word(out, at, b" at ");
    let at = put_number(out, at, refused.place as u64);
    put_byte(out, at, LINE_END)
}

pub fn put_finished(out: &mut [u8], steps: usize) -> usize
    requires { FIRST ≤ length out.old }
    ensures adds { Adds out.old 0 (finished_line steps) out.new result }
    ensures upper_bound { result ≤ FIRST }
{
    let at = put_word(out, 0, b"finished ");
    let at = put_number(out, at, steps as u64);
    put_byte(out, at, LINE_END)
}

// The room stays a slice, with its length in a clause, here and below: an array would ask more of the callers of put_reply.
fn put_processor(out: &mut [u8], at: usize, room: &[u32], p: usize) -> usize
    requires at_in_bounds { at + PROCESSOR ≤ length out.old }
    requires room_value { length room.now ≡ Cells.RESULT }
    requires p_bound { p < Program.PROCESSORS }
    ensures adds { Adds out.old at (processor_line room.now p) out.new result }
    ensures upper_bound { result ≤ at + PROCESSOR }
{
    let first = p * Cells::REGISTERS;
    let end = first + Cells::REGISTERS;
    let at = put_byte(out, at, b'p');
    let at = put_number(out, at, p as u64);
    let at = put_numbers(out, at, &room[first..end]);
    put_byte(out, at, LINE_END)
}

// Stays a loop over numbers: over the chunks of the room the proof did not close.
pub fn put_processors(out: &mut [u8], at: usize, room: &[u32]) -> usize
    requires at_in_bounds { at + PROCESSORS ≤ length out.old }
    requires room_value { length room.now ≡ Cells.RESULT }
    ensures fact { Adds out.old at (processor_lines room.now Program.PROCESSORS) out.new result }
    ensures upper_bound { result ≤ at + PROCESSORS }
{
    let mut next = at;
    for p in 0..Program::PROCESSORS {
        next = put_processor(out, next, room, p);
    }
    next
}

pub fn put_memory(out: &mut [u8], at: usize, room: &[u32]) -> usize
    requires at_in_bounds { at + MEMORY ≤ length out.old }
    requires room_value { length room.now ≡ Cells.RESULT }
    ensures adds { Adds out.old at (memory_line room.now) out.new result }
    ensures upper_bound { result ≤ at + MEMORY }
{
    let first = Cells::ALL_REGISTERS;
    let end = first + Cells::LOCATIONS;
    let at = put_byte(out, at, b'm');
    let at = put_numbers(out, at, &room[first..end]);
    put_byte(out, at, LINE_END)
}

pub fn put_own(out: &mut [u8], at: usize, room: &[u32]) -> usize
    requires at_in_bounds { at + OWN ≤ length out.old }
    requires room_value { length room.now ≡ Cells.RESULT }
    ensures adds { Adds out.old at (own_line room.now) out.new result }
    ensures upper_bound { result ≤ at + OWN }
{
    let at = put_word(out, at, b"own ");
    let at = put_number(out, at, u64::from(room[Cells::ALL]));
    put_byte(out, at, LINE_END)
}
