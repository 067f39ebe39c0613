// What the records so far have given.
ghost use Rattle.std.specs.Prelude.{◌≡◌};
ghost use Rattle.table_record.specs.Given.{nothing_given};

use model::table::Cells;

// The cells that initial records have given, and whether there was an instruction.
// Stays beside Cells, and no Option in them: those are what the machine begins with, and a cell that is not given is zero there.
#[derive(Drop)]
pub struct Given {
    pub registers: [bool; Cells::ALL_REGISTERS],
    pub memory: [bool; Cells::LOCATIONS],
    pub instruction: bool,
}

impl Given {
    pub fn nothing() -> Given
        ensures { result ≡ nothing_given }
    {
        Given {
            registers: [false; Cells::ALL_REGISTERS],
            memory: [false; Cells::LOCATIONS],
            instruction: false,
        }
    }
}
