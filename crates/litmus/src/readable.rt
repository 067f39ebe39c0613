// Whether records make a readable table.
ghost use Rattle.std.specs.Prelude.{◌≡◌};
ghost use Rattle.model.specs.Code.{tested_of};
ghost use Rattle.record.specs.Words.{records_in};
ghost use Rattle.litmus.specs.Tabled.{judged};

use model::answer::Verdict;
use record::word::unpacked;
use table::empty;
use table_record::enter::enter_record;
use table_record::given::Given;

// Stays beside the loop of table::read, which takes its records from bytes: what a turn does is one law for both (`Turns` in crate table).
// Their verdict, with the record as place. The program and the cells that they give are left behind.
pub fn readable(words: &[u64]) -> Verdict
    ensures { tested_of result tt ≡ judged (records_in words.now) }
{
    let mut program = empty::no_program();
    let mut cells = empty::no_cells();
    let mut given = Given::nothing();
    for (i, word) in words.iter().enumerate() {
        enter_record(&mut program, &mut cells, &mut given, i, unpacked(*word))?;
    }
    Ok(())
}
