// Forms one after the other, up to the token that ends the initial cells or the rows; and the records that they give.
ghost use Rattle.std.specs.Prelude.{◌≤◌, length};
ghost use Rattle.litmus_reader.specs.Forming.{FormsRead};
ghost use Rattle.litmus_reader.specs.Passing.{Ahead};

use crate::form::read_form;
use crate::records::Records;
use litmus_form::place::{Place, leaves_in, next_in};
use litmus_said::letter::Letters;
use litmus_token::next::next_token;
use model::answer::Refused;

// The byte behind that token. Stays a loop: how many forms there are is known at that token only.
pub fn read_forms(
    text: &[u8],
    at: usize,
    place: Place,
    letters: &mut Letters,
    records: &mut Records,
) -> Result<usize, Refused>
    requires { (at ≤ length text.now) × (records.old.count ≤ at) }
    ensures { FormsRead text.now at place letters.old records.old result letters.new records.new × Ahead records.new.count text.now result }
{
    let mut place = place;
    let mut at = at;
    loop {
        let token = next_token(text, at);
        if leaves_in(&place, &text[token.start..token.end]) {
            return Ok(token.end);
        }
        let (r, end) = read_form(text, at, &place, letters)?;
        records.keep(r);
        at = end;
        place = next_in(&place);
    }
}
