// What a table gives: each processor's program, and the cells at the start.
ghost use Rattle.std.specs.Prelude.{◌≡◌, [], ◌∷◌};
ghost use Rattle.model.specs.Sizes.{processors, registers_each, locations, instructions_each, outcome_cells, result_words, record_size, longest_trace};
ghost use Rattle.model.specs.Kinds.{table_rows};

use crate::kind::Role;
use crate::record::Record;

// The instructions as their table records give them, those of processor p at INSTRUCTIONS * p and on, and how many each processor has.
// Stays in columns: the definitions and theorems of specs/Code (`Columns`, `Fits`, `instruction_at`) speak of a list for each field.
#[derive(Drop)]
pub struct Program {
    pub kinds: [u8; Program::PLACES],
    pub registers: [u8; Program::PLACES],
    pub locations: [u8; Program::PLACES],
    pub counts: [u8; Program::PROCESSORS],
    pub values: [u32; Program::PLACES],
}

impl Program {
    pub const PROCESSORS: usize = 4;

    // Of one processor.
    pub const INSTRUCTIONS: usize = 16;

    pub const PLACES: usize = Self::PROCESSORS * Self::INSTRUCTIONS;

    // Stands where no value has been entered or issued; nothing reads it. It is not zero since LLVM zeroes what lies side by side, when it is more than 256 bytes,
    // by a call of memset, which the library would need of the program that it is linked to.
    pub const UNREAD: u32 = 1;

    // Steps in the longest finished trace: beside its program steps an instruction has a drain at most.
    pub const LONGEST: usize = Self::PLACES * (Role::PHASES + 1);
}

// The registers, processor by processor, and memory: what initial records set, and an outcome.
#[derive(Drop)]
pub struct Cells {
    pub registers: [u32; Cells::ALL_REGISTERS],
    pub memory: [u32; Cells::LOCATIONS],
}

impl Cells {
    // Of one processor.
    pub const REGISTERS: usize = 4;

    pub const LOCATIONS: usize = 8;

    pub const ALL_REGISTERS: usize = Program::PROCESSORS * Self::REGISTERS;

    // In an outcome.
    pub const ALL: usize = Self::ALL_REGISTERS + Self::LOCATIONS;

    // In the result of a check: the outcome, and how many reads own buffers served.
    pub const RESULT: usize = Self::ALL + 1;
}

// The limits of the code are those of the definitions.
pub fn limits() -> [usize; 9]
    ensures { result ≡ processors ∷ registers_each ∷ locations ∷ instructions_each ∷ outcome_cells ∷ result_words ∷ record_size ∷ longest_trace ∷ table_rows ∷ [] }
{
    [
        Program::PROCESSORS,
        Cells::REGISTERS,
        Cells::LOCATIONS,
        Program::INSTRUCTIONS,
        Cells::ALL,
        Cells::RESULT,
        Record::BYTES,
        Program::LONGEST,
        Role::KINDS,
    ]
}
