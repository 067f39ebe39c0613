// Whole files of the current folder, and what a program says on standard output.
#![tactic(auto)]

pub mod both;
pub mod read;
pub mod say;
pub mod write;
