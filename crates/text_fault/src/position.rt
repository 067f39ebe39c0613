// The line and the column of a place in a text.
ghost use Rattle.std.specs.Prelude.{◌≤◌, length};
ghost use Rattle.text_fault.specs.Places.{Stands};

// Both from 1; columns are bytes.
#[derive(Clone, Copy)]
pub struct Position {
    pub line: usize,
    pub column: usize,
}

pub fn position_at(text: &[u8], place: usize) -> Position
    requires { place ≤ length text.now }
    ensures { Stands text.now place result }
{
    let mut line: usize = 1;
    let mut column: usize = 1;
    for b in &text[..place] {
        if *b == b'\n' {
            line += 1;
            column = 1;
        } else {
            column += 1;
        }
    }
    Position { line, column }
}
