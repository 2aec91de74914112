// A book question: the request with everything, and its executable quotes in order.
ghost use Rattle.std.specs.Prelude.{length};
ghost use Rattle.tables.specs.Priced.{market_day};
ghost use Rattle.venue.specs.Calls.{book as book_call};
ghost use Rattle.venue.specs.Pages.{book_page};
ghost use Rattle.pages.specs.Paged.{Paged};

use super::asking::Pages;
use super::listing::list_executables;
use super::rows::Page;
use prices::sources::Source;
use records::causes::Cause;
use tables::table::Table;

impl<'a, S: Source> Pages<'a, S> {
    /// Writes the user's own request and its executable quotes into the buffer, and says how long that is. A refusal leaves
    /// the buffer as it was.
    pub fn book(&self, user: u8, request: u16, out: &mut [u8]) -> Result<usize, Cause>
        ensures { Paged (market_day S.rows S.screen self.now.market.now) (book_call user request (length out.old)) (book_page (market_day S.rows S.screen self.now.market.now) request) out.old out.new result }
    {
        self.market.tables.judge_owner(user, request)?;
        let mut line = Table::new();
        list_executables(self.market, request, &mut line);
        Page::book(self.market, user, request, line.as_slice()).write(out)
    }
}
