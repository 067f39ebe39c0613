// A table, read into a program and a machine where they lie.
ghost use Rattle.std.specs.Prelude.{◌≡◌};
ghost use Rattle.machine.specs.Arrays.{start_in};
ghost use Rattle.table.specs.Reads.{no_program, no_cells};
ghost use Rattle.table.specs.Begins.{Begins};

use crate::{empty, read};
use machine_state::state::Machine;
use model::answer::Verdict;
use model::table::Program;

// The program and the start that the table gives, if it is not refused. Before, there is no program, and the machine is at its start with all cells zero.
pub fn read_in_place(program: &mut Program, m: &mut Machine, table: &[u8]) -> Verdict
    requires { (program.old ≡ no_program) × (m.old ≡ start_in no_cells) }
    ensures { Begins table.now result program.new m.new }
{
    let mut cells = empty::no_cells();
    read::read(program, &mut cells, table)?;
    m.registers = cells.registers;
    m.memory = cells.memory;
    Ok(())
}
