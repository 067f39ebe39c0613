// What a token says at its pattern, or what is wrong with that whatever stands before it: a processor above 3, a constant out of range.
ghost use Rattle.std.specs.Prelude.{true, ◌≡◌};
ghost use Rattle.litmus_form.specs.Patterns.{pattern_of};
ghost use Rattle.litmus_model.specs.Bytes.{value_of};
ghost use Rattle.litmus_model.specs.Forms.{fits, a_processor, a_constant, mention, constant_of};
ghost use Rattle.litmus_said.specs.Saying.{Says};

use crate::constant::{constant_of, in_range, store};
use crate::value::value_of;
use litmus_form::patterns::Pattern;
use model::answer::Refusal;
use model::table::Program;

#[derive(Drop)]
pub enum Said {
    Nothing,
    Processor(u8),
    Register(u8),
    Letter(u8),
    Value(u32),
}

const PROCESSORS: u64 = Program::PROCESSORS as u64;

fn processor(t: &[u8]) -> Result<Said, Refusal>
    ensures { Says (a_processor (value_of t.now)) result }
{
    let v = value_of(t);
    if PROCESSORS <= v {
        return Err(Refusal::TextLimit);
    }
    Ok(Said::Processor(v as u8))
}

fn constant(t: &[u8]) -> Result<Said, Refusal>
    ensures { Says (a_constant (constant_of t.now)) result }
{
    let v = constant_of(t);
    if !in_range(v) {
        return Err(Refusal::TextConstant);
    }
    Ok(Said::Value(store(v)))
}

#[tactic(auto, unfolding(litmus_form::specs::Patterns::pattern_of, litmus_model::specs::Forms::mention))]
pub fn says(pattern: Pattern, t: &[u8]) -> Result<Said, Refusal>
    requires { fits (pattern_of pattern) t.now ≡ true }
    ensures { Says (mention (pattern_of pattern) t.now) result }
{
    match pattern {
        Pattern::Location => Ok(Said::Letter(t[0])),
        Pattern::Register => Ok(Said::Register(t[1] - b'A')),
        Pattern::Processor => processor(t),
        Pattern::Constant => constant(t),
        Pattern::Dollar => constant(&t[1..]),
        _ => Ok(Said::Nothing),
    }
}
