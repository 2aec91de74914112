// The forms of a day, and the debt that an acceptance leaves.
ghost use Rattle.tables.specs.Tabled.{bare_day};
ghost use Rattle.venue.specs.Places.{Placed};

use prices::sources::Source;
use records::causes::Refusal;
use tables::inner::Market;
use venue::rows::Report;

// No model of these forms: while a day is set up, contracts speak of its tables and of its source apart.
/// A day that is being set up: it takes users and symbols.
#[derive(Drop)]
pub struct Setup<S: Source> {
    pub(crate) market: Market<S>,
}

/// A day that trades.
#[derive(Drop)]
pub struct Trading<S: Source> {
    pub(crate) market: Market<S>,
    ghost placed: { Placed (bare_day market.tables) },
}

/// A day that is closed: it answers views.
#[derive(Drop)]
pub struct Closed<S: Source> {
    pub(crate) market: Market<S>,
    ghost placed: { Placed (bare_day market.tables) },
}

/// A close that was refused, and the day as it was.
pub struct Refused<S: Source> {
    // The day stands first, where a closed one would: LLVM takes very long over a result that holds a day at two places.
    pub day: Trading<S>,
    pub refusal: Refusal,
}

/// The trades of an acceptance that are to be reported. It can be neither copied nor let go: it is filed, once.
pub struct Debt {
    pub(crate) report: Report,
}
