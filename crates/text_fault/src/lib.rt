// Where a text goes wrong: line and column, and the line with a mark under the byte.
#![tactic(auto)]

pub mod fault;
mod line;
mod position;
mod shown;
