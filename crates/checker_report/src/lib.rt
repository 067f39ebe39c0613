// The reply to a check: a refusal, or the result, written into the lent room.
#![tactic(auto)]

pub mod reply;
