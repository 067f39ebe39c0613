// The state of a machine.
use model::table::{Cells, Program};

// Of each processor: at which instruction it stands, how many program steps of it are taken, how many of its writes are issued, and how many drained. Those between wait.
// `holder` holds the lock, and own buffers served `own` reads. Of the registers those of processor p stand at Cells::REGISTERS * p and on, and `kept` has what each one's
// exchange keeps aside. `locations` and `values` are the log of issued writes, those of processor p at Program::INSTRUCTIONS * p and on.
// Stays in columns: `State`, on which `Ready`, `Steps` and the theorems of crate machine stand, has a list for each of these.
// The values come between what is zero at the start (see Program::UNREAD).
#[derive(Drop)]
pub struct Machine {
    pub at: [usize; Program::PROCESSORS],
    pub phase: [usize; Program::PROCESSORS],
    pub issued: [usize; Program::PROCESSORS],
    pub drained: [usize; Program::PROCESSORS],
    pub holder: Option<usize>,
    pub own: usize,
    pub values: [u32; Program::PLACES],
    pub registers: [u32; Cells::ALL_REGISTERS],
    pub memory: [u32; Cells::LOCATIONS],
    pub kept: [u32; Program::PROCESSORS],
    pub locations: [u8; Program::PLACES],
}
