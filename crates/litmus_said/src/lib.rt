// What a token says of a record: a processor, a register, a location, a value.
#![tactic(auto)]

pub mod constant;
pub mod letter;
pub mod note;
pub mod said;
pub mod value;
