// Document 01's numbers, and document 02's.
ghost use Rattle.std.specs.Prelude.{◌≡◌};
ghost use Rattle.model.specs.Reply.{number_of};
ghost use Rattle.model.specs.Rules.{condition_number};

use crate::answer::{Condition, Refusal};

impl From<Condition> for u64 {
    ghost from_gives = { λ condition number. number ≡ condition_number condition };

    fn from(condition: Condition) -> u64 {
        match condition {
            Condition::AnotherKind => 14,
            Condition::NothingWaits => 18,
            Condition::LockHeld => 16,
            Condition::BufferNotEmpty => 17,
            Condition::NotRight => 15,
        }
    }
}

impl From<Refusal> for u64 {
    ghost from_gives = { λ why number. number ≡ number_of why };

    fn from(why: Refusal) -> u64 {
        match why {
            Refusal::TableLength => 1,
            Refusal::TableKind => 2,
            Refusal::TableRange => 3,
            Refusal::TableUnused => 4,
            Refusal::InitialLate => 5,
            Refusal::CellTwice => 6,
            Refusal::Seventeenth => 7,
            Refusal::TraceLength => 8,
            Refusal::StepKind => 9,
            Refusal::StepField => 10,
            Refusal::StepRule(condition) => u64::from(condition),
            Refusal::Unfinished => 12,
            Refusal::RoomTooSmall => 13,
            Refusal::TextGrammar => 19,
            Refusal::TextLimit => 20,
            Refusal::TextConstant => 21,
        }
    }
}
