// The program steps of each kind of instruction.
ghost use Rattle.std.specs.Prelude.{◌≡◌, ◌<◌};
ghost use Rattle.machine_rules.specs.Steps.{step_count, code_of, next_step, Decodes};

use model::kind::Role;

// The kinds of steps.
#[derive(Clone, Copy, PartialEq, Eq)]
pub enum Step {
    Read,
    Write,
    // No program step: it takes the oldest waiting write.
    Drain,
    Fence,
    Lock,
    Unlock,
    Local,
}

// By its number in a trace.
impl From<Step> for u8 {
    ghost from_gives = { λ step kind. kind ≡ code_of step };

    fn from(step: Step) -> u8 {
        match step {
            Step::Read => 1,
            Step::Write => 2,
            Step::Drain => 3,
            Step::Fence => 4,
            Step::Lock => 5,
            Step::Unlock => 6,
            Step::Local => 7,
        }
    }
}

// A number that no kind of step has.
#[derive(Clone, Copy)]
pub struct NoStep;

impl TryFrom<u8> for Step {
    type Error = NoStep;

    ghost try_from_gives = { Decodes };

    #[tactic(auto, unfolding(crate::specs::Steps::step_of))]
    fn try_from(kind: u8) -> Result<Step, NoStep> {
        match kind {
            1 => Ok(Step::Read),
            2 => Ok(Step::Write),
            3 => Ok(Step::Drain),
            4 => Ok(Step::Fence),
            5 => Ok(Step::Lock),
            6 => Ok(Step::Unlock),
            7 => Ok(Step::Local),
            _ => Err(NoStep),
        }
    }
}

const READ: Option<Step> = Some(Step::Read);

const WRITE: Option<Step> = Some(Step::Write);

const FENCE: Option<Step> = Some(Step::Fence);

const LOCK: Option<Step> = Some(Step::Lock);

const UNLOCK: Option<Step> = Some(Step::Unlock);

const LOCAL: Option<Step> = Some(Step::Local);

// Past the last program step.
const NONE: Option<Step> = None;

// The program steps of each instruction kind, in order. A static: a const that is indexed is written to the stack at each look.
static STEPS: [[Option<Step>; Role::PHASES]; Role::KINDS] = [
    [NONE, NONE, NONE, NONE], // 0 no kind
    [NONE, NONE, NONE, NONE], // 1 initial memory
    [NONE, NONE, NONE, NONE], // 2 initial register
    [WRITE, NONE, NONE, NONE], // 3 store constant
    [WRITE, NONE, NONE, NONE], // 4 store register
    [READ, NONE, NONE, NONE], // 5 load
    [LOCAL, NONE, NONE, NONE], // 6 set register
    [FENCE, NONE, NONE, NONE], // 7 fence
    [READ, WRITE, NONE, NONE], // 8 exchange
    [LOCK, READ, WRITE, UNLOCK], // 9 locked exchange
    [READ, WRITE, NONE, NONE], // 10 exchange-and-add
    [LOCK, READ, WRITE, UNLOCK], // 11 locked exchange-and-add
];

// And how many they are. Stays beside STEPS: document 01's named form is a table of tables with step counts.
static COUNTS: [u8; Role::KINDS] = [0, 0, 0, 1, 1, 1, 1, 1, 2, 4, 2, 4];

// The step `phase` of them, if there is one. The kind stays a byte, here and below: it is the record's, and a row of the named form's table.
pub fn next_step(kind: u8, phase: usize) -> Option<Step>
    requires { (kind < Role.KINDS) × (phase < Role.PHASES) }
    ensures { result ≡ next_step kind phase }
{
    STEPS[usize::from(kind)][phase]
}

pub fn step_count(kind: u8) -> usize
    requires { kind < Role.KINDS }
    ensures { result ≡ step_count kind }
{
    usize::from(COUNTS[usize::from(kind)])
}
