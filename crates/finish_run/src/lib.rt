// The reply to a finish, and the steps that complete a run.
#![tactic(auto)]

mod complete;
pub mod reply;
