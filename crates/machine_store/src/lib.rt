// Single stores. i is the instruction that its processor stands at, e the event.
#![tactic(auto)]

ghost use Rattle.std.specs.Prelude.{◌≡◌, ◌<◌};
ghost use Rattle.model.specs.Code.{register_of};
ghost use Rattle.machine_store.specs.Stores.{after_drain, assigned_in, received_at, counted_in, exchanged_in, issued_in, advanced_in, Own, Issuable, MayCount, Drainable, Onward};

use machine_rules::program;
use machine_state::state::Machine;
use model::kind::Role;
use model::origin::Origin;
use model::record::Record;
use model::table::{Cells, Program};

// The register of an instruction, among all registers.
pub fn register(i: Record) -> usize
    requires { Own i }
    ensures { result ≡ register_of i }
{
    Cells::REGISTERS * (i.processor as usize) + (i.register as usize)
}

// A load's read goes into register c, among all registers, an exchange's is kept aside.
pub fn receive(m: &mut Machine, i: Record, c: usize, v: u32)
    requires { (i.processor < Program.PROCESSORS) × (c < Cells.ALL_REGISTERS) }
    ensures { m.new ≡ received_at m.old i c v }
{
    match Role::from(i.kind) {
        Role::Load => m.registers[c] = v,
        _ => m.kept[i.processor as usize] = v,
    }
}

// A read that the own buffer served is counted.
pub fn count(m: &mut Machine, from: Origin)
    requires { MayCount m.old }
    ensures { m.new ≡ counted_in m.old from }
{
    match from {
        Origin::Waiting(_) => m.own += 1,
        Origin::Memory => {}
    }
}

// With an exchange's write register c, among all registers, takes the kept value.
pub fn exchange(m: &mut Machine, i: Record, c: usize)
    requires { (i.processor < Program.PROCESSORS) × (c < Cells.ALL_REGISTERS) }
    ensures { m.new ≡ exchanged_in m.old i c }
{
    match Role::from(i.kind) {
        Role::Exchange | Role::ExchangeAdd => {
            m.registers[c] = m.kept[i.processor as usize];
        }
        _ => {}
    }
}

// A local step sets the register.
pub fn assign(m: &mut Machine, i: Record)
    requires { Own i }
    ensures { m.new ≡ assigned_in m.old i i.value }
{
    m.registers[register(i)] = i.value;
}

// A write joins the newest end of the own buffer.
pub fn issue(m: &mut Machine, i: Record, e: Record)
    requires { Issuable m.old i.processor }
    ensures { m.new ≡ issued_in m.old i e }
{
    let p = i.processor as usize;
    let n = m.issued[p];
    let place = Program::INSTRUCTIONS * p + n;
    m.locations[place] = e.location;
    m.values[place] = e.value;
    m.issued[p] = n + 1;
}

// The oldest waiting write leaves the buffer, and memory takes it.
pub fn drain(m: &mut Machine, e: Record)
    requires { Drainable m.old e.processor e.location }
    ensures { m.new ≡ after_drain m.old e }
{
    m.memory[e.location as usize] = e.value;
    m.drained[e.processor as usize] += 1;
}

// Past one program step: the next one of the instruction or, after its last, the next instruction.
pub fn advance(m: &mut Machine, i: Record)
    requires { Onward m.old i }
    ensures { m.new ≡ advanced_in m.old i }
{
    let p = i.processor as usize;
    let taken = m.phase[p] + 1;
    if taken == program::step_count(i.kind) {
        m.at[p] += 1;
        m.phase[p] = 0;
    } else {
        m.phase[p] = taken;
    }
}
