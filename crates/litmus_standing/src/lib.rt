// What could stand at a place of a litmus text: samples of tokens, and which of them the call lets stand there.
#![tactic(auto)]

mod samples;
pub mod standing;
pub mod words;
