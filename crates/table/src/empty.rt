// Where a table begins: nothing is entered yet.
ghost use Rattle.std.specs.Prelude.{◌≡◌};
ghost use Rattle.table.specs.Reads.{no_program, no_cells};

use model::table::{Cells, Program};

pub fn no_program() -> Program
    ensures { result ≡ no_program }
{
    Program {
        kinds: [0; Program::PLACES],
        registers: [0; Program::PLACES],
        locations: [0; Program::PLACES],
        counts: [0; Program::PROCESSORS],
        values: [Program::UNREAD; Program::PLACES],
    }
}

pub fn no_cells() -> Cells
    ensures { result ≡ no_cells }
{
    Cells {
        registers: [0; Cells::ALL_REGISTERS],
        memory: [0; Cells::LOCATIONS],
    }
}
