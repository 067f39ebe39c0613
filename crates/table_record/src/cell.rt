// The cell that an initial record gives.
ghost use Rattle.table_record.specs.Enter.{GivesCell};

use model::answer::{Refusal, Verdict};

// Record i gives a cell its value: tests 5, 6, and then the cell is set. `given` says whether it was given before, `begun` whether there was an instruction.
pub fn give_cell(cell: &mut u32, given: &mut bool, begun: bool, i: usize, value: u32) -> Verdict
    ensures { GivesCell cell.old given.old begun i value result cell.new given.new }
{
    if begun {
        return Err(Refusal::InitialLate.at(i));
    }
    if *given {
        return Err(Refusal::CellTwice.at(i));
    }
    *cell = value;
    *given = true;
    Ok(())
}
