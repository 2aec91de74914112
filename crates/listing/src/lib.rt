// A file of records as lines that a person reads.
#![tactic(auto)]

pub mod lines;
pub mod texts;
