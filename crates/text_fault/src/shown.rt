// The lines of a fault: number, place, line and column, and then the text's line with a mark under the place.
ghost use Rattle.std.specs.Prelude.{◌≡◌, ◌++◌, ◌+◌, ◌≤◌, length};
ghost use Rattle.text.specs.Text.{Adds};
ghost use Rattle.text_fault.specs.Shown.{sign_of, signs, blanks, shown_line, mark_line, position_words, fault_line};

use crate::line::WIDTH;
use crate::position::Position;
use text::put::{DIGITS, LINE_END, put_byte, put_number, put_word};

// No position is longer: two words, two numbers and the line's end.
const POSITION: usize = DIGITS + DIGITS + 17;

// No first line is longer: two words more, and two numbers.
pub const FIRST: usize = DIGITS + DIGITS + POSITION + 12;

const INDENT: usize = 2;

// Nor one of the two behind it: the indent, what is shown, the mark and the line's end.
const LINE: usize = INDENT + WIDTH + 2;

pub const LINES: usize = LINE + LINE;

// A byte takes one column: what has no sign of its own is a question mark, and a carriage return, which is a blank, a space.
pub fn sign(b: u8) -> u8
    ensures { result ≡ sign_of b }
{
    match b {
        b'\r' => b' ',
        b' '..=b'~' => b,
        _ => b'?',
    }
}

fn put_signs(out: &mut [u8], at: usize, shown: &[u8]) -> usize
    requires { at + length shown.now ≤ length out.old }
    ensures adds { Adds out.old at (signs shown.now 0 (length shown.now)) out.new result }
    ensures value { result ≡ at + length shown.now }
{
    let mut next = at;
    for b in shown {
        next = put_byte(out, next, sign(*b));
    }
    next
}

fn put_blanks(out: &mut [u8], at: usize, n: usize) -> usize
    requires { at + n ≤ length out.old }
    ensures adds { Adds out.old at (blanks n) out.new result }
    ensures value { result ≡ at + n }
{
    let mut next = at;
    for _i in 0..n {
        next = put_byte(out, next, b' ');
    }
    next
}

fn put_line(out: &mut [u8], at: usize, shown: &[u8]) -> usize
    requires at_in_bounds { at + LINE ≤ length out.old }
    requires narrow { length shown.now ≤ WIDTH }
    ensures adds { Adds out.old at (shown_line shown.now 0 (length shown.now)) out.new result }
    ensures upper_bound { result ≤ at + LINE }
{
    let at = put_word(out, at, b"  ");
    let at = put_signs(out, at, shown);
    put_byte(out, at, LINE_END)
}

// The mark, behind k columns.
fn put_mark(out: &mut [u8], at: usize, k: usize) -> usize
    requires at_in_bounds { at + LINE ≤ length out.old }
    requires k_bound { k ≤ WIDTH }
    ensures adds { Adds out.old at (mark_line k) out.new result }
    ensures upper_bound { result ≤ at + LINE }
{
    let at = put_word(out, at, b"  ");
    let at = put_blanks(out, at, k);
    put_word(out, at, b"^\n")
}

// Both: the mark stands under byte k of those shown.
pub fn put_shown(out: &mut [u8], at: usize, shown: &[u8], k: usize) -> usize
    requires at_in_bounds { at + LINES ≤ length out.old }
    requires narrow { length shown.now ≤ WIDTH }
    requires k_bound { k ≤ WIDTH }
    ensures adds { Adds out.old at (shown_line shown.now 0 (length shown.now) ++ mark_line k) out.new result }
    ensures upper_bound { result ≤ at + LINES }
{
    let at = put_line(out, at, shown);
    put_mark(out, at, k)
}

// Behind a number and a place.
fn put_position(out: &mut [u8], at: usize, p: Position) -> usize
    requires { at + POSITION ≤ length out.old }
    ensures adds { Adds out.old at (position_words p.line p.column) out.new result }
    ensures upper_bound { result ≤ at + POSITION }
{
    let at = put_word(out, at, b": line ");
    let at = put_number(out, at, p.line as u64);
    let at = put_word(out, at, b", column ");
    let at = put_number(out, at, p.column as u64);
    put_byte(out, at, LINE_END)
}

// At the start of out.
pub fn put_first(out: &mut [u8], number: u64, place: usize, p: Position) -> usize
    requires { FIRST ≤ length out.old }
    ensures adds { Adds out.old 0 (fault_line number place p.line p.column) out.new result }
    ensures upper_bound { result ≤ FIRST }
{
    let at = put_word(out, 0, b"refused ");
    let at = put_number(out, at, number);
    let at = put_word(out, at, b" at ");
    let at = put_number(out, at, place as u64);
    put_position(out, at, p)
}
