// The head of a text: X86, a name, and the brace that opens the initial cells. At the text's end the next token is empty, and fits nowhere.
ghost use Rattle.std.specs.Prelude.{◌≡◌, []};
ghost use Rattle.litmus_model.specs.Reader.{beginning, braces, read_text};
ghost use Rattle.litmus_reader.specs.Passing.{answer, onward, Ahead, Names};

use litmus_form::patterns::is_mark;
use litmus_token::next::{next_name, next_token};
use litmus_token::tokens::is_name;
use litmus_token::words::same_bytes;
use model::answer::{Refusal, Refused};

// X86 and the name; the byte behind them.
fn read_name(text: &[u8]) -> Result<usize, Refused>
    ensures { Names text.now result × Ahead 0 text.now result }
{
    let first = next_token(text, 0);
    if !same_bytes(b"X86", &text[first.start..first.end]) {
        return Err(Refusal::TextGrammar.at(first.start));
    }
    let name = next_name(text, first.end);
    if !is_name(&text[name.start..name.end]) {
        return Err(Refusal::TextGrammar.at(name.start));
    }
    Ok(name.end)
}

pub fn read_head(text: &[u8]) -> Result<usize, Refused>
    ensures { (read_text text.now ≡ onward result (λ at. answer text.now at (beginning braces) [] [])) × Ahead 0 text.now result }
{
    let at = read_name(text)?;
    let brace = next_token(text, at);
    if !is_mark(b'{', &text[brace.start..brace.end]) {
        return Err(Refusal::TextGrammar.at(brace.start));
    }
    Ok(brace.end)
}
