// What a program holds.
ghost use Rattle.std.specs.Prelude.{◌≡◌, ◌<◌, get_or};
ghost use Rattle.model.specs.Code.{place_at, instruction_at, count_in};

use model::record::Record;
use model::table::Program;

// How many instructions processor p has.
pub fn count(program: &Program, p: usize) -> usize
    requires { p < Program.PROCESSORS }
    ensures { result ≡ count_in program.now p }
{
    usize::from(program.counts[p])
}

// The kind of its instruction a.
pub fn kind(program: &Program, p: usize, a: usize) -> u8
    requires { (p < Program.PROCESSORS) × (a < Program.INSTRUCTIONS) }
    ensures { result ≡ get_or program.now.kinds (place_at p a) 0 }
{
    program.kinds[Program::INSTRUCTIONS * p + a]
}

// Its instruction a, as its table record gave it.
#[tactic(auto, unfolding(model::specs::Code::instruction_at))]
pub fn instruction(program: &Program, p: usize, a: usize) -> Record
    requires { (p < Program.PROCESSORS) × (a < Program.INSTRUCTIONS) }
    ensures { result ≡ instruction_at program.now p a }
{
    let place = Program::INSTRUCTIONS * p + a;
    Record {
        kind: program.kinds[place],
        processor: p as u8,
        register: program.registers[place],
        location: program.locations[place],
        value: program.values[place],
    }
}
