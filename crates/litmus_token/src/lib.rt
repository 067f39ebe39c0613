// The tokens of a litmus text: where one ends, and what it is.
#![tactic(auto)]

pub mod next;
pub mod tokens;
pub mod words;
