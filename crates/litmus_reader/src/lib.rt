// A litmus text, read from its head to its end: its records, or the first fault.
#![tactic(auto)]

pub mod form;
pub mod forms;
pub mod head;
pub mod headings;
pub mod read;
pub mod records;
