// The inner tables of a day: look-ups, prices now, and what is asked of values.
#![tactic(auto)]

pub mod facts;
pub mod inner;
pub mod lists;
pub mod look;
pub mod market;
pub mod names;
pub mod rows;
pub mod table;
pub mod values;
