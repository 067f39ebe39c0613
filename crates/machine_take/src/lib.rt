// A write, a fence, a lock, an unlock, a local step, attempted: the conditions of its rule are tested in order, and the first that is met turns it down. That a program step is the next one is
// tested before. e is the event, i the instruction that its processor stands at.
#![tactic(auto)]

pub mod hold;
pub mod local;
pub mod write;
