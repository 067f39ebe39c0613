// Cases, answered one after the other on standard output.
ghost use Rattle.case.specs.Parts.{Fits};

use crate::answer::answer;
use crate::input::{Broken, Parts, WORDS, read_case};
use ambercell::CAnswer;
use case::head::{Head, MOST};
use case::words::{LONG, put_long};
use record::bytes::WORD;
use std::io::{Read, Write};

fn say_answer<O: Write>(output: &mut O, answer: CAnswer, room: &[u8]) {
    let mut bytes = [0u8; LONG + LONG];
    put_long(&mut bytes, 0, answer.number);
    put_long(&mut bytes, LONG, answer.place);
    let _ = output.write_all(&bytes);
    let _ = output.write_all(room);
}

fn answer_aloud<O: Write>(output: &mut O, head: Head, parts: &mut Parts)
    requires { Fits MOST head }
{
    let table = &parts.table[..];
    let trace = &parts.trace[..];
    let room = &mut parts.room[..];
    let words = &mut parts.words[..];
    let said = answer(
        u32::from(head.call),
        &table[..head.table],
        &trace[..head.trace],
        &mut room[..head.room],
        &mut words[..head.room / WORD],
    );
    say_answer(output, said, &room[..head.room]);
}

// No line of standard error is longer.
const LINE: usize = 128;

// More than anybody sends. Stays a count: a loop without an end needs a handle that HANDLES does not allow.
const CASES: u64 = 1000000000000;

// What ends the answers, in one write: `writeln!` on the output itself would write it in three pieces.
fn complain<E: Write>(errors: &mut E, broken: Broken) {
    let mut line = [0u8; LINE];
    let mut rest = &mut line[..];
    let _ = writeln!(rest, "cases: {broken}");
    let n = LINE.saturating_sub(rest.len());
    let _ = errors.write_all(&line[..n]);
}

pub fn answer_all<I: Read, O: Write, E: Write>(input: &mut I, output: &mut O, errors: &mut E) {
    let mut parts = Parts {
        table: [0; MOST],
        trace: [0; MOST],
        room: [0; MOST],
        words: [0; WORDS],
    };
    for _ in 0..CASES {
        match read_case(input, &mut parts) {
            Ok(Some(head)) => answer_aloud(output, head, &mut parts),
            Ok(None) => return,
            Err(broken) => {
                complain(errors, broken);
                return;
            }
        }
    }
}
