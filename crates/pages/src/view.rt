// A view: the open requests sent to the user, its live quotes, and its trades.
ghost use Rattle.std.specs.Prelude.{length};
ghost use Rattle.tables.specs.Priced.{market_day};
ghost use Rattle.venue.specs.Calls.{view as view_call};
ghost use Rattle.venue.specs.Pages.{view_page};
ghost use Rattle.pages.specs.Paged.{Paged};

use super::asking::Pages;
use super::rows::Page;
use prices::sources::Source;
use records::causes::Cause;
use tables::table::Table;

impl<'a, S: Source> Pages<'a, S> {
    /// Writes the user's view of the day into the buffer, and says how long it is. A refusal leaves the buffer as it was.
    pub fn view(&self, user: u8, out: &mut [u8]) -> Result<usize, Cause>
        ensures { Paged (market_day S.rows S.screen self.now.market.now) (view_call user (length out.old)) (view_page (market_day S.rows S.screen self.now.market.now) user) out.old out.new result }
    {
        self.market.tables.judge_caller(user)?;
        let mut seen = Table::new();
        self.list_seen(user, &mut seen);
        Page::view(self.market, user, seen.as_slice()).write(out)
    }
}
