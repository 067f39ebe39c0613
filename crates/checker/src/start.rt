// Where a call begins: a machine at its start.
ghost use Rattle.std.specs.Prelude.{◌≡◌};
ghost use Rattle.machine.specs.Arrays.{start_in};
ghost use Rattle.table.specs.Reads.{no_cells};

use machine_state::state::Machine;
use model::table::{Cells, Program};

// All cells zero, nothing taken, nothing waiting, the lock free.
pub fn at_start() -> Machine
    ensures { result ≡ start_in no_cells }
{
    Machine {
        at: [0; Program::PROCESSORS],
        phase: [0; Program::PROCESSORS],
        issued: [0; Program::PROCESSORS],
        drained: [0; Program::PROCESSORS],
        holder: None,
        own: 0,
        values: [Program::UNREAD; Program::PLACES],
        registers: [0; Cells::ALL_REGISTERS],
        memory: [0; Cells::LOCATIONS],
        kept: [0; Program::PROCESSORS],
        locations: [0; Program::PLACES],
    }
}
