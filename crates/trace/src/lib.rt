// A trace: each record is read, its fields are tested, and the step is attempted.
#![tactic(auto)]

mod event;
pub mod follow;
