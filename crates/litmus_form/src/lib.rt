// The forms of initial cells and of instructions: what may stand where, and which forms can still be meant.
#![tactic(auto)]

pub mod forms;
pub mod patterns;
pub mod place;
