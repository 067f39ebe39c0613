// The plain types that the definitions (specs/) and the code share, and document 01's limits, each beside the type it limits.
#![tactic(auto)]

pub mod answer;
pub mod kind;
pub mod number;
pub mod origin;
pub mod record;
pub mod table;
