// The state of a machine, what a program holds, and whether a run is finished.
#![tactic(auto)]

pub mod finished;
pub mod program;
pub mod state;
