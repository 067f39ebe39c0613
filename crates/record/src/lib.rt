// One record of eight bytes: read, written, and the tests of its fields.
#![tactic(auto)]

pub mod bytes;
pub mod fields;
pub mod word;
