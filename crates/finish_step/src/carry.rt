// The moves that finish a run: a processor drains its oldest waiting write or, with none, takes its next program step. Each answers its event.
ghost use Rattle.std.specs.Prelude.{◌≡◌, ◌<◌};
ghost use Rattle.model.specs.Rules.{event as event_as};
ghost use Rattle.machine_rules.specs.Steps.{code_of};
ghost use Rattle.finish_step.specs.Moves.{MayDrainOldest, DrainsOldest, MayCarryOut, CarriesOut};

use machine_rules::guards;
use machine_rules::program::Step;
use machine_state::state::Machine;
use model::record::Record;
use model::table::Program;

fn event(step: Step, p: usize, x: u8, v: u32) -> Record
    requires { p < Program.PROCESSORS }
    ensures { result ≡ event_as (code_of step) p x v }
{
    Record {
        kind: u8::from(step),
        processor: p as u8,
        register: 0,
        location: x,
        value: v,
    }
}

pub fn drain_oldest(m: &mut Machine, p: usize) -> Record
    requires { MayDrainOldest m.old p }
    ensures { DrainsOldest m.old p result m.new }
{
    let place = Program::INSTRUCTIONS * p + m.drained[p];
    let e = event(Step::Drain, p, m.locations[place], m.values[place]);
    machine_store::drain(m, e);
    e
}

// The program step `next`, before the program goes on. Its processor stands at the instruction i, and nothing of it waits: a read sees memory.
pub fn carry_out(m: &mut Machine, i: Record, next: Step) -> Record
    requires { MayCarryOut m.old i next }
    ensures { CarriesOut m.old i next result m.new }
{
    let p = i.processor as usize;
    match next {
        Step::Read => {
            let e = event(next, p, i.location, m.memory[i.location as usize]);
            machine_store::receive(m, i, machine_store::register(i), e.value);
            e
        }
        Step::Write => {
            let c = machine_store::register(i);
            let v = guards::issued_by(i.kind, i.value, m.kept[p], m.registers[c]);
            let e = event(next, p, i.location, v);
            machine_store::exchange(m, i, c);
            machine_store::issue(m, i, e);
            e
        }
        Step::Fence => event(next, p, 0, 0),
        Step::Lock => {
            m.holder = Some(p);
            event(next, p, 0, 0)
        }
        Step::Unlock => {
            m.holder = None;
            event(next, p, 0, 0)
        }
        Step::Local => {
            machine_store::assign(m, i);
            event(next, p, 0, 0)
        }
        // No program step.
        Step::Drain => unreachable!(),
    }
}
