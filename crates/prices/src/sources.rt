// Price sources: rows, read through a screen.
ghost use Rattle.std.specs.Prelude.{◌≡◌, ℕ, min, List, length, replicate, Result};
ghost use Rattle.records.specs.declared.causes.Refusal.{Refusal as Refused};
ghost use Rattle.prices.specs.declared.rows.Row.{Row as RowOf};
ghost use Rattle.prices.specs.declared.rows.Row.TheVariants.{Never};
ghost use Rattle.prices.specs.Rows.{bare, echo, fresh, post_answer, post_rows, read_answer, row_of, uncrossed};

use super::rows::{PLACES, Pair, Row};
use records::causes::{Cause, Refusal};

/// A source of prices. It means its rows, one for each of 64 places, and its screen, which says what a row gives at a time.
pub trait Source {
    ghost rows: { Self → List RowOf };

    ghost screen: { Self → ℕ → RowOf → ℕ → Result (ℕ × ℕ × ℕ) Refused };

    /// Posts a pair at a time, or that the pair is gone. One row is replaced; the others and the screen stay.
    fn post(&mut self, place: usize, pair: Option<Pair>, time: u32) -> Result<(), Refusal>
        ensures answer { result ≡ post_answer place }
        ensures rows { rows self.new ≡ post_rows (rows self.old) place (row_of pair time) }
        ensures screen { screen self.new ≡ screen self.old };

    /// Reads what the row at a place gives at a time: bid, offer and posting time.
    fn read(&self, place: usize, time: u32) -> Result<(u32, u32, u32), Refusal>
        ensures { result ≡ read_answer (rows self.now) (screen self.now) place time };

    ghost full: { (s : Self) → length (rows s) ≡ 64 };
}

/// The source at the bottom.
#[derive(Drop)]
pub struct Sheet {
    rows: [Row; PLACES],
    ghost full: { length rows ≡ 64 },
}

impl Sheet {
    /// A sheet on which nothing was ever posted.
    pub fn new() -> Sheet
        ensures { result.rows ≡ replicate 64 Never }
    {
        Sheet {
            rows: [Row::Never; PLACES],
        }
    }
}

impl Source for Sheet {
    ghost rows = { λ s. s.rows };

    ghost screen = { λ _. bare };

    ghost full = { λ s. s.full };

    fn post(&mut self, place: usize, pair: Option<Pair>, time: u32) -> Result<(), Refusal> {
        // By index: once a row that `get_mut` lends is given back, nothing is known of the others.
        if place >= PLACES {
            return Err(Cause::NoSuchPlace.at(place));
        }
        self.rows[place] = match pair {
            Some(pair) => Row::Posted(pair, time),
            None => Row::Gone,
        };
        Ok(())
    }

    fn read(&self, place: usize, _time: u32) -> Result<(u32, u32, u32), Refusal> {
        match self.rows.get(place) {
            None => Err(Cause::NoSuchPlace.at(place)),
            Some(Row::Never) => Err(Cause::NeverPosted.at(place)),
            Some(Row::Gone) => Err(Cause::PriceGone.at(place)),
            Some(&Row::Posted(Pair { bid, offer }, posted)) => Ok((bid, offer, posted)),
        }
    }
}

/// The crossed screen over any source: it refuses a pair whose offer is below its bid.
#[derive(Drop)]
pub struct Crossed<S: Source> {
    below: S,
}

impl<S: Source> Crossed<S> {
    /// The screen over a source.
    pub fn over(below: S) -> Crossed<S>
        ensures { result.below ≡ below }
    {
        Crossed { below }
    }
}

impl<S: Source> Source for Crossed<S> {
    ghost rows = { λ s. S.Source.rows s.below };

    ghost screen = { λ s. uncrossed (S.Source.screen s.below) };

    ghost full = { λ s. S.Source.full s.below };

    fn post(&mut self, place: usize, pair: Option<Pair>, time: u32) -> Result<(), Refusal> {
        self.below.post(place, pair, time)
    }

    fn read(&self, place: usize, time: u32) -> Result<(u32, u32, u32), Refusal> {
        let reading @ (bid, offer, _) = self.below.read(place, time)?;
        if offer < bid {
            return Err(Cause::CrossedPair.at(place));
        }
        Ok(reading)
    }
}

// A type of its own beside `Crossed`: contracts speak of the fields of each, which one type over any test would hide.
/// The age screen over any source: it refuses a pair that is older than its limit.
#[derive(Drop)]
pub struct Aged<S: Source> {
    below: S,
    limit: u32,
}

/// The highest age limit: a day.
const MOST_AGE: u32 = 86_400_000;

impl<S: Source> Aged<S> {
    /// The screen over a source, with a limit in milliseconds. More than a day counts as a day.
    pub fn over(below: S, limit: u32) -> Aged<S>
        ensures below { result.below ≡ below }
        ensures limit { result.limit ≡ min limit 86400000 }
    {
        Aged {
            below,
            limit: limit.min(MOST_AGE),
        }
    }
}

impl<S: Source> Source for Aged<S> {
    ghost rows = { λ s. S.Source.rows s.below };

    ghost screen = { λ s. fresh s.limit (S.Source.screen s.below) };

    ghost full = { λ s. S.Source.full s.below };

    fn post(&mut self, place: usize, pair: Option<Pair>, time: u32) -> Result<(), Refusal> {
        self.below.post(place, pair, time)
    }

    fn read(&self, place: usize, time: u32) -> Result<(u32, u32, u32), Refusal> {
        let reading @ (_, _, posted) = self.below.read(place, time)?;
        if time.saturating_sub(posted) > self.limit {
            return Err(Cause::TooOld.at(place));
        }
        Ok(reading)
    }
}

/// The stack of the program: the crossed screen over the age screen over a new sheet.
pub fn stack(limit: u32) -> Crossed<Aged<Sheet>>
    ensures sheet { result.below.below.rows ≡ replicate 64 Never }
    ensures limit { result.below.limit ≡ min limit 86400000 }
{
    Crossed::over(Aged::over(Sheet::new(), limit))
}

/// Posts to any source and reads back: what the screen says of the row that was posted, whatever stood there before.
pub fn post_and_read<S: Source>(
    source: &mut S,
    place: usize,
    pair: Option<Pair>,
    posted: u32,
    time: u32,
) -> Result<(u32, u32, u32), Refusal>
    ensures answer { result ≡ echo (S.screen source.old) place (row_of pair posted) time }
    ensures rows { S.rows source.new ≡ post_rows (S.rows source.old) place (row_of pair posted) }
    ensures screen { S.screen source.new ≡ S.screen source.old }
{
    source.post(place, pair, posted)?;
    source.read(place, time)
}
