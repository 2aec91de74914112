// The acceptance of quotes: the named quotes in order, their fills, and what these leave of the tables.
#![tactic(auto)]

pub mod accept;
mod fill;
mod line;
mod numbers;
mod settle;
mod terms;
