// What can stand, in words: a list.
ghost use Rattle.std.specs.Prelude.{◌+◌, ◌≤◌, ◌<◌, length};

use crate::samples::{ROWS, WORDS, row_at};
use text::put::put_word;

// What is put between words.
const BETWEEN: usize = 4;

// No list of words is longer.
pub const LIST: usize = ROWS * (BETWEEN + WORDS);

// What stands before the words behind `done` others, of so many.
fn between(done: usize, many: usize) -> &'static str
    requires { done < ROWS }
    ensures { length result.now ≤ BETWEEN }
{
    match done {
        0 => "",
        _ if done + 1 == many => " or ",
        _ => ", ",
    }
}

// The words of all samples that can stand.
pub fn put_standing(out: &mut [u8], at: usize, which: [bool; ROWS]) -> usize
    requires { at + LIST ≤ length out.old }
    ensures { result ≤ at + LIST }
{
    let many = which.iter().filter(|can| **can).count();
    let mut next = at;
    let mut done: usize = 0;
    for (k, can) in which.iter().enumerate() {
        if *can {
            next = put_word(out, next, between(done, many).as_bytes());
            next = put_word(out, next, row_at(k).1.as_bytes());
            done += 1;
        }
    }
    next
}
