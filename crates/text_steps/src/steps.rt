// Steps in the sheet's notation, a step a line.
ghost use Rattle.std.specs.Prelude.{◌≡◌, ◌+◌, ◌*◌, ◌≤◌, length, get_or};
ghost use Rattle.model.specs.Record.{records_from};
ghost use Rattle.text.specs.Text.{Adds};
ghost use Rattle.text_steps.specs.Steps.{unknown, letters, names, access, step_line, step_lines};

use machine_rules::program::Step;
use model::record::Record;
use record::bytes::read_record;
use text::put::{DIGITS, LINE_END, put_byte, put_number};

// A space, a name and a number.
const ACCESS: usize = DIGITS + 2;

// No line of a step is longer: a letter, a number, what is accessed and the line's end.
pub const LINE: usize = DIGITS + ACCESS + 2;

fn letter(kind: u8) -> u8
    ensures { result ≡ get_or letters kind unknown }
{
    match Step::try_from(kind) {
        Ok(Step::Read) => b'R',
        Ok(Step::Write) => b'W',
        Ok(Step::Drain) => b'D',
        Ok(Step::Fence) => b'F',
        Ok(Step::Lock) => b'L',
        Ok(Step::Unlock) => b'U',
        Ok(Step::Local) => b'N',
        Err(_) => b'?',
    }
}

fn name(location: u8) -> u8
    ensures { result ≡ get_or names location unknown }
{
    match location {
        0 => b'x',
        1 => b'y',
        2 => b'z',
        3 => b'a',
        4 => b'b',
        5 => b'c',
        6 => b'd',
        7 => b'e',
        _ => b'?',
    }
}

// Location and value, if the step has them. Stays a range of numbers: `access` is one, of a record of any kind.
fn put_access(out: &mut [u8], at: usize, e: Record) -> usize
    requires { at + ACCESS ≤ length out.old }
    ensures adds { Adds out.old at (access e) out.new result }
    ensures upper_bound { result ≤ at + ACCESS }
{
    if (u8::from(Step::Read)..=u8::from(Step::Drain)).contains(&e.kind) {
        let at = put_byte(out, at, b' ');
        let at = put_byte(out, at, name(e.location));
        put_number(out, at, u64::from(e.value))
    } else {
        at
    }
}

fn put_step(out: &mut [u8], at: usize, e: Record) -> usize
    requires { at + LINE ≤ length out.old }
    ensures adds { Adds out.old at (step_line e) out.new result }
    ensures upper_bound { result ≤ at + LINE }
{
    let at = put_byte(out, at, letter(e.kind));
    let at = put_number(out, at, u64::from(e.processor));
    let at = put_access(out, at, e);
    put_byte(out, at, LINE_END)
}

// The first n records of these bytes, at the start of out.
pub fn put_steps(out: &mut [u8], bytes: &[u8], n: usize) -> usize
    requires n_in_bounds { n * LINE ≤ length out.old }
    requires n_in_bounds_2 { n * Record.BYTES ≤ length bytes.now }
    ensures adds { Adds out.old 0 (step_lines (records_from bytes.now 0 n)) out.new result }
    ensures upper_bound { result ≤ length out.old }
{
    let mut next = 0;
    for i in 0..n {
        next = put_step(out, next, read_record(bytes, i));
    }
    next
}
