// Views and book questions, written into a buffer that the caller lends.
ghost use Rattle.std.specs.Prelude.{length};
ghost use Rattle.day.specs.Told.{Shows, trading_day};
ghost use Rattle.venue.specs.Calls.{Call.book as books, Call.view as views};

use super::forms::Trading;
use pages::asking::Pages;
use prices::sources::Source;
use records::causes::Refusal;

impl<S: Source> Trading<S> {
    /// Writes what a user sees of the day, and says how long it is. A refusal leaves the buffer as it was.
    pub fn view(&self, user: u8, out: &mut [u8]) -> Result<usize, Refusal>
        ensures { Shows (trading_day S.rows S.screen self.now) (views user (length out.old)) out.old out.new result }
    {
        let pages = Pages {
            market: &self.market,
        };
        Ok(pages.view(user, out)?)
    }

    /// Writes a request of the caller's with all its fields, and its executable quotes in their order, and says how long
    /// that is. A refusal leaves the buffer as it was.
    pub fn book(&self, user: u8, request: u16, out: &mut [u8]) -> Result<usize, Refusal>
        ensures { Shows (trading_day S.rows S.screen self.now) (books user request (length out.old)) out.old out.new result }
    {
        let pages = Pages {
            market: &self.market,
        };
        Ok(pages.book(user, request, out)?)
    }
}
