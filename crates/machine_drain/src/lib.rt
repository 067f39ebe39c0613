// A drain, attempted, as machine_take attempts the other steps.
#![tactic(auto)]

pub mod drain;
