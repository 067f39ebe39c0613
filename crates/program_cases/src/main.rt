// Answers cases, one after the other: each is read from standard input, and its answer and its room go to standard output.
// docs/TESTS.md has the form of both.
#![tactic(auto)]

use std::io::Input;

mod aloud;
mod answer;
mod input;

fn main(rt: HostRuntime) {
    aloud::answer_all(&mut rt.reader(), &mut rt.stdout(), &mut rt.stderr());
}
