// What pages are written from.
ghost use Rattle.tables.specs.Tabled.{bare_day};
ghost use Rattle.venue.specs.Places.{Placed};

use tables::inner::Market;

/// A market whose requests all stand on symbols, so that their lines can name them: it answers views and book questions.
#[derive(Drop)]
pub struct Pages<'a, S> {
    pub market: &'a Market<S>,
    ghost placed: { Placed (bare_day market.now.tables) },
}
