// When a step is allowed (document 01): the program steps of each kind, the lookup, and whether the lock blocks a processor.
#![tactic(auto)]

pub mod guards;
pub mod program;
pub mod waiting;
