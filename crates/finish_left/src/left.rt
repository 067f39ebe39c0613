// k: the program steps left, plus the writes not yet issued, plus the writes waiting.
ghost use Rattle.std.specs.Prelude.{◌≡◌, ◌+◌, ◌*◌, ◌≤◌, ◌<◌, get_or};
ghost use Rattle.model.specs.Code.{count_in};
ghost use Rattle.machine_rules.specs.Steps.{code_of};
ghost use Rattle.finish_left.specs.Weight.{step_weight, instruction_left, heaviest, program_left, Countable};
ghost use Rattle.finish_left.specs.Left.{left_in, AllCountable};

use machine_rules::program;
use machine_rules::program::Step;
use machine_state::program as programs;
use machine_state::state::Machine;
use model::kind::Role;
use model::table::Program;

// A program step counts one, and a write one more for its drain.
fn step_weight(step: Step) -> usize
    ensures { result ≡ step_weight (code_of step) }
{
    match step {
        Step::Write => 2,
        _ => 1,
    }
}

// Of an instruction of this kind, from program step f on.
fn instruction_left(kind: u8, f: usize) -> usize
    requires { kind < Role.KINDS }
    ensures { result ≡ instruction_left kind f }
{
    let mut k = 0;
    for next in f..Role::PHASES {
        k += program::next_step(kind, next).map_or(0, step_weight);
    }
    k
}

// Of processor p's program.
fn program_left(program: &Program, m: &Machine, p: usize) -> usize
    requires { Countable program.now.kinds p (count_in program.now p) (get_or m.now.at p 0) (get_or m.now.phase p 0) }
    ensures { (result ≡ program_left program.now.kinds p (count_in program.now p) (get_or m.now.at p 0) (get_or m.now.phase p 0)) × (result ≤ heaviest) }
{
    let mut k = 0;
    let mut f = m.phase[p];
    for a in m.at[p]..programs::count(program, p) {
        k += instruction_left(programs::kind(program, p, a), f);
        f = 0;
    }
    k
}

// By number, as `left_of_first` goes: several arrays are read at p. The bound is wider than the longest trace: it is there so that no sum runs over.
pub fn left(program: &Program, m: &Machine) -> usize
    requires { AllCountable program.now m.now }
    ensures value { result ≡ left_in program.now m.now }
    ensures result_bound { result ≤ Program.PROCESSORS * (heaviest + Program.INSTRUCTIONS) }
{
    let mut k = 0;
    for p in 0..Program::PROCESSORS {
        let waiting = m.issued[p] - m.drained[p];
        k += program_left(program, m, p) + waiting;
    }
    k
}
