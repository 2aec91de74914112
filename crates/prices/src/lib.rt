// Prices: the sources that they are read from, and what a leg or a limit comes to.
#![tactic(auto)]

pub mod pricing;
pub mod rows;
pub mod sources;
