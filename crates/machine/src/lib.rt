// The x86-TSO machine: one step.
#![tactic(auto)]

mod next;
pub mod step;
