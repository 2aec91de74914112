// Filing what is owed, and the close.
ghost use Rattle.std.specs.Prelude.{◌≡◌};
ghost use Rattle.day.specs.Told.{DayBack, DebtBack, Steps, day_closing, told_closing, told_filing, trading_day};
ghost use Rattle.venue.specs.Calls.{Call.close, Call.file};

use super::forms::{Closed, Debt, Refused, Trading};
use edits::changes::{end_all, file_trades};
use judges::debts::{judge_close, judge_filing};
use prices::sources::Source;
use records::causes::Refusal;

impl<S: Source> Trading<S> {
    /// Files the trades of a debt. A refusal gives the debt back.
    pub fn file(&mut self, debt: Debt) -> Result<(), (Refusal, Debt)>
        ensures step { Steps (trading_day S.rows S.screen self.old) (file debt.report) (trading_day S.rows S.screen self.new) (told_filing result) }
        ensures back { DebtBack debt result }
    {
        // By hand: a closure of `map_err` would take the debt, which only a refusal gives back.
        if let Err(cause) = judge_filing(&self.market.tables, &debt.report) {
            return Err((cause.into(), debt));
        }
        let Debt { report } = debt;
        file_trades(&mut self.market.tables, &report);
        Ok(())
    }

    /// Closes the day: all requests and quotes end. While a trade is unfiled, the day is handed back as it was.
    pub fn close(self) -> Result<Closed<S>, Refused<S>>
        ensures step { Steps (trading_day S.rows S.screen self) close (day_closing S.rows S.screen result) (told_closing result) }
        ensures back { DayBack self result }
    {
        if let Err(cause) = judge_close(&self.market.tables) {
            return Err(Refused {
                refusal: cause.into(),
                day: self,
            });
        }
        let Trading { mut market } = self;
        end_all(&mut market.tables);
        Ok(Closed { market })
    }
}
