// A read, attempted, as machine_take attempts the other steps: e is the event, i the instruction that its processor stands at.
#![tactic(auto)]

pub mod read;
