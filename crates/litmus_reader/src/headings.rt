// The headings P0, P1 and so on, up to their semicolon.
ghost use Rattle.std.specs.Prelude.{◌≡◌, ◌≤◌, length};
ghost use Rattle.model.specs.Sizes.{processors};
ghost use Rattle.litmus_model.specs.Bytes.{same};
ghost use Rattle.litmus_model.specs.Forms.{heading};
ghost use Rattle.litmus_reader.specs.Passing.{HeadingsRead};

use litmus_form::patterns::is_mark;
use litmus_token::next::next_token;
use litmus_token::words::same_bytes;
use model::answer::{Refusal, Refused};
use model::table::Program;

fn is_heading(n: usize, t: &[u8]) -> bool
    requires { n ≤ processors }
    ensures { result ≡ same (heading n) t.now }
{
    same_bytes(&[b'P', b'0' + n as u8], t)
}

// How many there are, and the byte behind them.
pub fn read_headings(text: &[u8], at: usize) -> Result<(usize, usize), Refused>
    requires { at ≤ length text.now }
    ensures { HeadingsRead text.now at result }
{
    let mut at = at;
    for n in 0..Program::PROCESSORS + 1 {
        let token = next_token(text, at);
        if !is_heading(n, &text[token.start..token.end]) {
            return Err(Refusal::TextGrammar.at(token.start));
        }
        // The fifth.
        if n == Program::PROCESSORS {
            return Err(Refusal::TextLimit.at(token.start));
        }
        let mark = next_token(text, token.end);
        if is_mark(b';', &text[mark.start..mark.end]) {
            return Ok((n + 1, mark.end));
        }
        if !is_mark(b'|', &text[mark.start..mark.end]) {
            return Err(Refusal::TextGrammar.at(mark.start));
        }
        at = mark.end;
    }
    // The fifth is refused.
    unreachable!()
}
