// A case, a call with its table, trace and room, as bytes: its head, and its words and long numbers. docs/TESTS.md has the form.
#![tactic(auto)]

pub mod call;
pub mod head;
pub mod words;
