// Text as bytes in a lent buffer: numbers, and the text of a reply.
#![tactic(auto)]

pub mod lines;
pub mod put;
pub mod reply;
