// What could stand at a place of a litmus text: each sample is tried there, by the call itself.
ghost use Rattle.std.specs.Prelude.{◌≡◌, [], ◌+◌, ◌≤◌, ◌<◌, length, take};
ghost use Rattle.model.specs.Reply.{reply_of};
ghost use Rattle.litmus_standing.specs.Standing.{goes_on, can_stand};

use crate::samples::{ROWS, SAMPLE, row_at};
use litmus::litmus::litmus;
use model::answer::{Answer, Refusal};
use text::put::{put_byte, put_word};

// What is put behind a text to try a sample: a blank, and the sample.
pub const TRIED: usize = SAMPLE + 1;

// The answer is to a text of that size.
fn goes_on(answer: Answer, size: usize) -> bool
    ensures { result ≡ goes_on (reply_of answer []) size }
{
    match answer {
        Ok(_) => true,
        Err(refused) => !matches!(refused.why, Refusal::TextGrammar) || refused.place == size,
    }
}

// Whether the sample can stand at the place, behind what stands before it. Overwrites what stands there.
pub fn can_stand(text: &mut [u8], place: usize, sample: &[u8]) -> bool
    requires { place + length sample.now < length text.old }
    ensures value { result ≡ can_stand (take place text.old) sample.now }
    ensures text_unchanged { take place text.new ≡ take place text.old }
{
    let first = put_byte(text, place, b' ');
    let end = put_word(text, first, sample);
    let mut room = [0u8; 0];
    goes_on(litmus(&text[..end], &mut room), end)
}

// Which samples can stand. Where a name can, whatever else can is a name too.
pub fn standing_at(text: &mut [u8], place: usize) -> [bool; ROWS]
    requires { place + TRIED ≤ length text.old }
{
    let mut which = [false; ROWS];
    which[0] = can_stand(text, place, row_at(0).0.as_bytes());
    if !which[0] {
        for k in 1..ROWS {
            which[k] = can_stand(text, place, row_at(k).0.as_bytes());
        }
    }
    which
}
