// A day that is being set up: users, symbols, and the opening.
ghost use Rattle.std.specs.Prelude.{◌≡◌};
ghost use Rattle.day.specs.Told.{trading_day};
ghost use Rattle.tables.specs.Tabled.{setting_of};
ghost use Rattle.venue.specs.Debts.{Debts};
ghost use Rattle.venue.specs.Model.{open_day};
ghost use Rattle.venue.specs.Quantities.{EndedRests, EntriesStay, OffersStay, QuantitiesAddUp, TradesAreGood};
ghost use Rattle.venue.specs.Setting.{SetupCall.add_symbol, SetupCall.add_user, nothing_set, opening_of, setup_answer, setup_next};
ghost use Rattle.venue.specs.TwoDays.{HeldBackStaysHidden, StrangersToldNothing};

use super::forms::{Setup, Trading};
use edits::opening::{empty_tables, enter_symbol, enter_user, open_tables};
use judges::setup::{judge_symbol, judge_user};
use prices::sources::Source;
use records::causes::Refusal;
use tables::inner::Market;
use venue::rows::{NewSymbol, NewUser};

impl<S: Source> Setup<S> {
    /// A day over a source, with nothing in it. The source may have rows already.
    pub fn new(source: S) -> Setup<S>
        ensures setting { setting_of result.market.tables ≡ nothing_set }
        ensures source { result.market.source ≡ source }
    {
        Setup {
            market: Market {
                tables: empty_tables(),
                source,
            },
        }
    }

    // Each names its own judge and its own change, as the calls of a trading day do.
    /// Enters a user.
    pub fn add_user(&mut self, user: NewUser) -> Result<(), Refusal>
        ensures answer { result ≡ setup_answer (setting_of self.old.market.tables) (add_user user) }
        ensures setting { setting_of self.new.market.tables ≡ setup_next (setting_of self.old.market.tables) (add_user user) }
        ensures source { self.new.market.source ≡ self.old.market.source }
    {
        judge_user(&self.market.tables, &user)?;
        enter_user(&mut self.market.tables, &user);
        Ok(())
    }

    /// Enters a symbol, at the next place.
    pub fn add_symbol(&mut self, symbol: NewSymbol) -> Result<(), Refusal>
        ensures answer { result ≡ setup_answer (setting_of self.old.market.tables) (add_symbol symbol) }
        ensures setting { setting_of self.new.market.tables ≡ setup_next (setting_of self.old.market.tables) (add_symbol symbol) }
        ensures source { self.new.market.source ≡ self.old.market.source }
    {
        judge_symbol(&self.market.tables, &symbol)?;
        enter_symbol(&mut self.market.tables, &symbol);
        Ok(())
    }

    /// Opens the day with a number. From there on, whatever calls come: what entries hold back stays hidden, quantities add
    /// up, and the unfiled trades are those on the debts that are out.
    pub fn open(self, day: u32) -> Trading<S>
        ensures opened { trading_day S.rows S.screen result ≡ open_day (opening_of (setting_of self.market.tables) day (S.rows self.market.source) (S.screen self.market.source)) }
        ensures source { result.market.source ≡ self.market.source }
        ensures hidden { HeldBackStaysHidden }
        ensures strangers { StrangersToldNothing }
        ensures sums { QuantitiesAddUp }
        ensures entries { EntriesStay }
        ensures offers { OffersStay }
        ensures rests { EndedRests }
        ensures trades { TradesAreGood }
        ensures debts { Debts }
    {
        let Setup { mut market } = self;
        open_tables(&mut market.tables, day);
        Trading { market }
    }
}
