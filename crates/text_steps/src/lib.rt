// Steps in the notation of handover sheets, and the text of a finish.
#![tactic(auto)]

pub mod added;
pub mod steps;
