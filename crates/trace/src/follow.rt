// A trace, record by record, on the machine where it lies.
ghost use Rattle.machine.specs.Ready.{Ready};
ghost use Rattle.trace.specs.Follows.{Follows};

use crate::event;
use machine::step;
use machine_state::state::Machine;
use model::answer::{Refusal, Verdict};
use model::record::Record;
use model::table::Program;
use record::bytes;

// The whole trace, from the verdict of the table on: where the table is refused, no record is stepped.
pub fn follow_in_place(program: &Program, m: &mut Machine, read: Verdict, trace: &[u8]) -> Verdict
    requires { Ready program.now m.old }
    ensures { Follows program.now m.old read trace.now result m.new }
{
    read?;
    let n = trace.len() / Record::BYTES;
    if trace.len() % Record::BYTES != 0 {
        return Err(Refusal::TraceLength.at(n));
    }
    for i in 0..n {
        let e = bytes::read_record(trace, i);
        event::misread(i, e)?;
        step::step(program, m, e).map_err(|why| Refusal::StepRule(why).at(i))?;
    }
    Ok(())
}
