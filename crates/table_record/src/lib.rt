// One record of a table, tested and entered (document 01, numbers 2 to 7).
#![tactic(auto)]

mod cell;
pub mod enter;
mod form;
pub mod given;
