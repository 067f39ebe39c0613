// The whole table.
ghost use Rattle.std.specs.Prelude.{◌≡◌};
ghost use Rattle.table.specs.Reads.{no_program, no_cells, Reads};

use model::answer::{Refusal, Verdict};
use model::record::Record;
use model::table::{Cells, Program};
use record::bytes;
use table_record::enter;
use table_record::given::Given;

// The program and the cells that a table gives, if it is not refused. Before, there is no program, and all cells are zero.
pub fn read(program: &mut Program, cells: &mut Cells, table: &[u8]) -> Verdict
    requires { (program.old ≡ no_program) × (cells.old ≡ no_cells) }
    ensures { Reads table.now result program.new cells.new }
{
    let n = table.len() / Record::BYTES;
    if table.len() % Record::BYTES != 0 {
        return Err(Refusal::TableLength.at(n));
    }
    let mut given = Given::nothing();
    for i in 0..n {
        let r = bytes::read_record(table, i);
        enter::enter_record(program, cells, &mut given, i, r)?;
    }
    Ok(())
}
