// Text put into a lent buffer from the place `at` on. Each function answers the place after what it put.
// Stays a slice with a place beside it: `Adds` speaks of all of a buffer, of any length, and a string of fixed capacity would ask more of callers.
ghost use Rattle.std.specs.Prelude.{◌≡◌, [], ◌∷◌, ◌+◌, ◌*◌, ◌≤◌, ◌<◌, length};
ghost use Rattle.text.specs.Text.{Adds, decimal, spaced};

use itoa::Buffer;

pub const LINE_END: u8 = 10;

// As many digits as the largest u64 has.
pub const DIGITS: usize = 20;

// A number, and the space before it.
pub const SPACED: usize = DIGITS + 1;

pub fn put_byte(out: &mut [u8], at: usize, byte: u8) -> usize
    requires { at < length out.old }
    ensures adds { Adds out.old at (byte ∷ []) out.new result }
    ensures value { result ≡ at + 1 }
{
    out[at] = byte;
    at + 1
}

pub fn put_word(out: &mut [u8], at: usize, word: &[u8]) -> usize
    requires { at + length word.now ≤ length out.old }
    ensures adds { Adds out.old at word.now out.new result }
    ensures value { result ≡ at + length word.now }
{
    let end = at + word.len();
    out[at..end].copy_from_slice(word);
    end
}

#[tactic(auto, using(crate::proofs::Adding::decimal_is))]
pub fn put_number(out: &mut [u8], at: usize, n: u64) -> usize
    requires { at + DIGITS ≤ length out.old }
    ensures adds { Adds out.old at (decimal n) out.new result }
    ensures upper_bound { result ≤ at + DIGITS }
{
    put_word(out, at, Buffer::new().format(n).as_bytes())
}

// Each number with a space before it.
pub fn put_numbers(out: &mut [u8], at: usize, numbers: &[u32]) -> usize
    requires { at + SPACED * length numbers.now ≤ length out.old }
    ensures adds { Adds out.old at (spaced numbers.now) out.new result }
    ensures upper_bound { result ≤ at + SPACED * length numbers.now }
{
    let mut next = at;
    for n in numbers {
        next = put_byte(out, next, b' ');
        next = put_number(out, next, u64::from(*n));
    }
    next
}
