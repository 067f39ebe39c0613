// Reading a table (document 01, numbers 1 to 7).
#![tactic(auto)]

pub mod empty;
pub mod in_place;
mod read;
