// What a token says goes into the record under way, of which the kind is not known yet.
ghost use Rattle.std.specs.Prelude.{true, ◌≡◌};
ghost use Rattle.litmus_form.specs.Patterns.{pattern_of};
ghost use Rattle.litmus_model.specs.Forms.{fits, mention};
ghost use Rattle.litmus_said.specs.Saying.{Notes};

use crate::letter::Letters;
use crate::said::{Said, says};
use litmus_form::patterns::Pattern;
use model::answer::Refusal;
use model::record::Record;

pub fn note(r: Record, pattern: Pattern, t: &[u8], letters: &mut Letters) -> Result<Record, Refusal>
    requires { fits (pattern_of pattern) t.now ≡ true }
    ensures { Notes r (mention (pattern_of pattern) t.now) letters.old result letters.new }
{
    match says(pattern, t)? {
        Said::Nothing => Ok(r),
        Said::Processor(processor) => Ok(Record { processor, ..r }),
        Said::Register(register) => Ok(Record { register, ..r }),
        Said::Letter(x) => {
            let Some(i) = letters.locate(x) else {
                return Err(Refusal::TextLimit);
            };
            Ok(Record {
                location: i as u8,
                ..r
            })
        }
        Said::Value(value) => Ok(Record { value, ..r }),
    }
}
