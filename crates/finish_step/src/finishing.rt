// One finishing step.
ghost use Rattle.finish_step.specs.Finishing.{HasMore, HasMover, FinishesBy};

use crate::carry;
use finish_left::mover;
use machine_rules::program;
use machine_state::program as programs;
use machine_state::state::Machine;
use model::record::Record;
use model::table::Program;

// Processor p, who moves, drains its oldest waiting write or, with none, takes its next program step.
fn step_of(program: &Program, m: &mut Machine, p: usize) -> Record
    requires { HasMover program.now m.old p }
    ensures { FinishesBy program.now m.old result m.new }
{
    if m.drained[p] != m.issued[p] {
        return carry::drain_oldest(m, p);
    }
    let i = programs::instruction(program, p, m.at[p]);
    // Nothing waits, so a program step is left.
    let Some(next) = program::next_step(i.kind, m.phase[p]) else {
        unreachable!()
    };
    let e = carry::carry_out(m, i, next);
    machine_store::advance(m, i);
    e
}

// Takes the finishing step, and answers its event.
pub fn finishing_step(program: &Program, m: &mut Machine) -> Record
    requires { HasMore program.now m.old }
    ensures { FinishesBy program.now m.old result m.new }
{
    // A step is left, so one of them moves.
    let Some(p) = mover::mover(program, m) else {
        unreachable!()
    };
    step_of(program, m, p)
}
