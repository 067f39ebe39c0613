// What is left of a run: k, and who moves when it is finished.
#![tactic(auto)]

pub mod left;
pub mod mover;
