// What calls that are carried out write into the tables.
#![tactic(auto)]

pub mod changes;
pub mod opening;
pub mod sweeps;
