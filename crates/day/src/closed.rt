// A closed day answers views, and nothing else.
ghost use Rattle.std.specs.Prelude.{length};
ghost use Rattle.day.specs.Told.{Shows, closed_day};
ghost use Rattle.venue.specs.Calls.{Call.view as views};

use super::forms::Closed;
use pages::asking::Pages;
use prices::sources::Source;
use records::causes::Refusal;

// Beside that of a trading day: the two forms are two types, and neither has the calls of the other.
impl<S: Source> Closed<S> {
    /// Writes what a user sees of the closed day, and says how long it is. A refusal leaves the buffer as it was.
    pub fn view(&self, user: u8, out: &mut [u8]) -> Result<usize, Refusal>
        ensures { Shows (closed_day S.rows S.screen self.now) (views user (length out.old)) out.old out.new result }
    {
        let pages = Pages {
            market: &self.market,
        };
        Ok(pages.view(user, out)?)
    }
}
