// The call for litmus texts: a text and a lent room in, a stated answer out.
#![tactic(auto)]

pub mod litmus;
mod readable;
mod records;
