// The rows of a source, and what a price is asked for.

/// How many places a source has.
pub const PLACES: usize = 64;

/// A bid and an offer.
#[derive(Clone, Copy, Debug, PartialEq, Eq)]
pub struct Pair {
    pub bid: u32,
    pub offer: u32,
}

// No `Option`: a place has two ways to hold no pair, which are refused by different numbers.
/// What stands at a place of a source: nothing was ever posted there, the pair is gone, or a pair and the time at which it
/// was posted.
#[derive(Clone, Copy, Debug, PartialEq, Eq)]
pub enum Row {
    Never,
    Gone,
    Posted(Pair, u32),
}

/// The leg of a quote: one that sells or one that buys.
#[derive(Clone, Copy, Debug, PartialEq, Eq)]
pub enum Leg {
    Selling,
    Buying,
}

/// The ticks of a symbol.
#[derive(Clone, Copy, Debug, Default, PartialEq, Eq)]
pub struct Ticks {
    pub tick: u32,
}
