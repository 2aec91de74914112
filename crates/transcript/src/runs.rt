// Where a run stands.
use day::forms::{Closed, Setup, Trading};
use prices::sources::Source;

/// The day in its form, on the heap: a day is large, and a run is moved with each record.
#[derive(Drop)]
pub enum Run<S: Source> {
    Setting(Box<Setup<S>>),
    Trading(Box<Trading<S>>),
    Closed(Box<Closed<S>>),
}
