// The finishing step: who moves drains its oldest waiting write or, with none, takes its next program step.
#![tactic(auto)]

mod carry;
pub mod finishing;
