// A form: an initial cell, or a cell of a row, up to the mark that closes it.
ghost use Rattle.std.specs.Prelude.{◌≤◌, length};
ghost use Rattle.litmus_reader.specs.Forming.{FormRead};

use litmus_form::forms::{LONGEST, advance, first_alive, form_at, pattern_at};
use litmus_form::place::{Place, blank_in, flags_in, mark_in};
use litmus_said::letter::Letters;
use litmus_said::note::note;
use litmus_token::next::next_token;
use model::answer::{Refusal, Refused};
use model::record::Record;

// Its record, of kind 0 for an empty cell, and the byte behind it.
pub fn read_form(
    text: &[u8],
    at: usize,
    place: &Place,
    letters: &mut Letters,
) -> Result<(Record, usize), Refused>
    requires { at ≤ length text.now }
    ensures { FormRead text.now at place.now letters.old result letters.new }
{
    let mark = mark_in(place);
    let mut alive = flags_in(place);
    let mut r = blank_in(place);
    let mut at = at;
    for i in 0..LONGEST {
        let token = next_token(text, at);
        // No form is at its end here, so none may end with the text.
        if token.start == text.len() {
            return Err(Refusal::TextGrammar.at(token.start));
        }
        let bytes = &text[token.start..token.end];
        let left = advance(alive, mark, i, bytes);
        let Some(j) = first_alive(left) else {
            return Err(Refusal::TextGrammar.at(token.start));
        };
        match note(r, pattern_at(mark, j, i), bytes, letters) {
            Err(why) => return Err(why.at(token.start)),
            Ok(noted) => r = noted,
        }
        let form = form_at(j);
        if i + 1 == form.length {
            r.kind = form.kind;
            return Ok((r, token.end));
        }
        alive = left;
        at = token.end;
    }
    // No form is longer.
    unreachable!()
}
