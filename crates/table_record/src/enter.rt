// A record, tested and entered into program and cells.
ghost use Rattle.std.specs.Prelude.{◌≡◌};
ghost use Rattle.model.specs.Code.{register_of};
ghost use Rattle.table_record.specs.Given.{Formed};
ghost use Rattle.table_record.specs.Enter.{EntersInstruction, EntersFormed, Enters};

use crate::given::Given;
use crate::{cell, form};
use machine_state::program as programs;
use model::answer::{Refusal, Verdict};
use model::kind::Role;
use model::record::Record;
use model::table::{Cells, Program};

// The register of a record, among all registers. Stays beside machine_store::register, whose crate is about machines, and asks for an instruction.
fn register_of(r: Record) -> usize
    requires { Formed r }
    ensures { result ≡ register_of r }
{
    let p = r.processor as usize;
    let q = r.register as usize;
    Cells::REGISTERS * p + q
}

// Record i, an instruction: test 7, and then it is the last of its processor so far.
fn enter_instruction(program: &mut Program, begun: &mut bool, i: usize, r: Record) -> Verdict
    requires { Formed r }
    ensures { EntersInstruction Program.INSTRUCTIONS program.old begun.old i r result program.new begun.new }
{
    let p = r.processor as usize;
    let n = programs::count(program, p);
    if Program::INSTRUCTIONS <= n {
        return Err(Refusal::Seventeenth.at(i));
    }
    let at = Program::INSTRUCTIONS * p + n;
    program.kinds[at] = r.kind;
    program.registers[at] = r.register;
    program.locations[at] = r.location;
    program.values[at] = r.value;
    program.counts[p] = (n + 1) as u8;
    *begun = true;
    Ok(())
}

// Record i, which has passed tests 2, 3, 4: tests 5, 6 or 7, and then its cell is set, or it is an instruction more.
fn enter_formed(
    program: &mut Program,
    cells: &mut Cells,
    given: &mut Given,
    i: usize,
    r: Record,
) -> Verdict
    requires { Formed r }
    ensures { EntersFormed program.old cells.old given.old i r result program.new cells.new given.new }
{
    let begun = given.instruction;
    match Role::from(r.kind) {
        Role::InitialMemory => {
            let x = r.location as usize;
            cell::give_cell(
                &mut cells.memory[x],
                &mut given.memory[x],
                begun,
                i,
                r.value,
            )
        }
        Role::InitialRegister => {
            let c = register_of(r);
            cell::give_cell(
                &mut cells.registers[c],
                &mut given.registers[c],
                begun,
                i,
                r.value,
            )
        }
        _ => enter_instruction(program, &mut given.instruction, i, r),
    }
}

// Record i: tests 2 to 7 in turn, and then it is entered. If it is refused, nothing changes.
pub fn enter_record(
    program: &mut Program,
    cells: &mut Cells,
    given: &mut Given,
    i: usize,
    r: Record,
) -> Verdict
    ensures { Enters program.old cells.old given.old i r result program.new cells.new given.new }
{
    form::malformed(i, r)?;
    enter_formed(program, cells, given, i, r)
}
