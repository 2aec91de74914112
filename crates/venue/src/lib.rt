// The venue: the rows of a day, in specs/ the model of a day, and theorems about it.
#![tactic(auto)]

pub mod order;
pub mod rows;
pub mod theorems;
