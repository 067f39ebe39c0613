// What a program says on standard output.
use std::fmt::Display;

// Where the output takes it: what can't be written is not told.
pub fn say(rt: &impl Print, text: &[u8]) {
    let _ = rt.write_all(text);
}

pub fn say_line(rt: &impl Print, line: impl Display + Drop) {
    let _ = rt.println(line);
}
