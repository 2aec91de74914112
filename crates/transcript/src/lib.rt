// The text of a day, from the bytes of a file.
#![tactic(auto)]

mod lines;
mod runs;
pub mod texts;
pub mod theorems;
mod turns;
