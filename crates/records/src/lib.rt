// Records as bytes: why one is refused, what its fields are, and how it is read and written.
#![tactic(auto)]

pub mod causes;
pub mod checks;
pub mod fields;
pub mod heads;
pub mod layouts;
pub mod parts;
pub mod reading;
pub mod writing;
