// The calls: a table, a trace and a lent room in, a stated answer out.
#![tactic(auto)]

pub mod check;
pub mod finish;
mod start;
