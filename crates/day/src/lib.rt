// The three forms of a day over any price source: being set up, trading, and closed. Each moves into the next.
#![tactic(auto)]

pub mod closed;
pub mod closing;
pub mod dealing;
pub mod forms;
pub mod opening;
pub mod trading;
pub mod viewing;
