// Accepting quotes.
ghost use Rattle.day.specs.Told.{Steps, told_deal, trading_day};
ghost use Rattle.venue.specs.Calls.{Call.accept as accepts};

use super::forms::{Debt, Trading};
use deals::accept::accept;
use prices::sources::Source;
use records::causes::Refusal;
use venue::rows::Acceptance;

impl<S: Source> Trading<S> {
    /// Trades with the named quotes in their order, down to the floor or not at all, and gives the number of trades and the
    /// debt for them.
    pub fn accept(&mut self, acceptance: Acceptance) -> Result<(u16, Debt), Refusal>
        ensures { Steps (trading_day S.rows S.screen self.old) (accepts acceptance) (trading_day S.rows S.screen self.new) (told_deal result) }
    {
        let report = accept(&mut self.market, &acceptance)?;
        let count = report.last + 1 - report.first;
        Ok((count, Debt { report }))
    }
}
