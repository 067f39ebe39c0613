ghost use Rattle.std.specs.Prelude.{◌≡◌};
ghost use Rattle.model.specs.Reply.{refusal_at};

// Why a step is turned down, in the words of document 02, order 1. specs/Rules.antt says when each is met, for which steps, and gives its number.
#[derive(Clone, Copy)]
pub enum Condition {
    // The program's next step is another kind, or the program has ended.
    AnotherKind,
    NothingWaits,
    // By another processor.
    LockHeld,
    // The own buffer.
    BufferNotEmpty,
    // The location, or the value.
    NotRight,
}

// Why a call is refused. specs/Reply.antt gives document 01's number for each case.
#[derive(Clone, Copy)]
pub enum Refusal {
    TableLength,
    TableKind,
    TableRange,
    TableUnused,
    InitialLate,
    CellTwice,
    Seventeenth,
    TraceLength,
    StepKind,
    StepField,
    StepRule(Condition),
    Unfinished,
    RoomTooSmall,
    // A litmus text is outside the grammar.
    TextGrammar,
    // A ninth location, or a processor above 3.
    TextLimit,
    // A constant out of range.
    TextConstant,
}

impl Refusal {
    pub fn at(self, place: usize) -> Refused
        ensures { result ≡ refusal_at self place }
    {
        Refused {
            why: self,
            place: place,
        }
    }
}

// Why, and the place.
#[derive(Clone, Copy)]
pub struct Refused {
    pub why: Refusal,
    pub place: usize,
}

// The steps in the trace when checking, k when finishing, the records of a litmus text; or the refusal.
pub type Answer = Result<usize, Refused>;

// What is tested may go on, or is refused.
pub type Verdict = Result<(), Refused>;

// A step is taken, or turned down: why.
pub type Attempt = Result<(), Condition>;
