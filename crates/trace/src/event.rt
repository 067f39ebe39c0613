// The tests of a record by itself (document 01, numbers 9 and 10).
ghost use Rattle.std.specs.Prelude.{◌≡◌};
ghost use Rattle.model.specs.Calls.{step_tests};
ghost use Rattle.model.specs.Code.{Gives};
ghost use Rattle.model.specs.Fields.{Known};
ghost use Rattle.model.specs.Kinds.{step_uses};
ghost use Rattle.record.specs.Fields.{row_of};

use machine_rules::program::Step;
use model::answer::{Refusal, Verdict};
use model::record::Record;
use record::fields;

// Which of processor, register, location, value the kinds of steps use: those with a location and a value, and those without.
const PLACED: [bool; Record::FIELDS] = [true, false, true, true];

const BARE: [bool; Record::FIELDS] = [true, false, false, false];

// Stays beside the one of crate table_record: this gives 10 for both, that one 3 and 4.
// Test 10 of record i, whose kind uses these. Its kind is known.
fn tested(used: [bool; Record::FIELDS], i: usize, e: Record) -> Verdict
    requires { Known step_uses e × (used ≡ row_of step_uses e.kind) }
    ensures { Gives result (step_tests e) i }
{
    if fields::too_large(used, e) | fields::not_zero(used, e) {
        return Err(Refusal::StepField.at(i));
    }
    Ok(())
}

// Tests 9, 10 of record i. Each row is tested by itself: with its constants in place few instructions are left.
pub fn misread(i: usize, e: Record) -> Verdict
    ensures { Gives result (step_tests e) i }
{
    let Ok(step) = Step::try_from(e.kind) else {
        return Err(Refusal::StepKind.at(i));
    };
    match step {
        Step::Read | Step::Write | Step::Drain => tested(PLACED, i, e),
        Step::Fence | Step::Lock | Step::Unlock | Step::Local => tested(BARE, i, e),
    }
}
