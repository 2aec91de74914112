// Which calls are refused, and why: a judge for each call, equal to the model's.
#![tactic(auto)]

pub mod debts;
pub mod facts;
pub mod setup;
pub mod verdicts;
