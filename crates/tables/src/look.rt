// What is read of the tables. A number or a place that is none gives the empty row.
ghost use Rattle.std.specs.Prelude.{◌≡◌, ◌<◌, length, slice_index_or};
ghost use Rattle.tables.specs.Tabled.{bare_day};
ghost use Rattle.tables.specs.Used.{used};
ghost use Rattle.venue.specs.Days.{numbered as row_numbered, open_of, quote_of, remaining_of, request_of, symbol_of, trade_of, user_of};

use super::inner::{REQUESTS, Tables};
use venue::rows::{Quote, Request, Symbol, Trade, User};

// An empty row where there is none, as in the day: that no such row was entered and that it has ended is one answer.
/// The row with a number, counted from 1, or the row that stands for none.
pub fn numbered<R: Copy>(rows: &[R], n: u16, none: R) -> R
    ensures { result ≡ row_numbered none rows.now n }
{
    usize::from(n)
        .checked_sub(1)
        .and_then(|i| rows.get(i))
        .copied()
        .unwrap_or(none)
}

impl Tables {
    /// The user with a number.
    pub fn user(&self, n: u8) -> User
        ensures { result ≡ user_of (bare_day self.now) n }
    {
        self.users.get(usize::from(n)).copied().unwrap_or_default()
    }

    /// The symbol at a place. Where there is none, its tick and its large value are 0, as in the day; its name is eight zeros,
    /// where the day's empty symbol has no name.
    pub fn symbol(&self, place: usize) -> Symbol
        ensures ticks { result.ticks ≡ (symbol_of (bare_day self.now) place).ticks }
        ensures large { result.large ≡ (symbol_of (bare_day self.now) place).large }
        ensures name { place < length (used self.now.symbols) → result.name ≡ (symbol_of (bare_day self.now) place).name }
    {
        self.symbols
            .as_slice()
            .get(place)
            .copied()
            .unwrap_or_default()
    }

    /// The request with a number.
    pub fn request(&self, n: u16) -> Request
        ensures { result ≡ request_of (bare_day self.now) n }
    {
        numbered(self.requests.as_slice(), n, Request::default())
    }

    /// The quote with a number.
    pub fn quote(&self, n: u16) -> Quote
        ensures { result ≡ quote_of (bare_day self.now) n }
    {
        numbered(self.quotes.as_slice(), n, Quote::default())
    }

    /// The trade with a number.
    pub fn trade(&self, n: u16) -> Trade
        ensures { result ≡ trade_of (bare_day self.now) n }
    {
        numbered(self.trades.as_slice(), n, Trade::default())
    }

    /// What is open of the request with a number.
    pub fn open(&self, n: u16) -> u32
        ensures { result ≡ open_of (bare_day self.now) n }
    {
        numbered(&self.quantities[..self.requests.len()], n, 0)
    }

    /// What remains of the quote with a number.
    pub fn remaining(&self, n: u16) -> u32
        ensures { result ≡ remaining_of (bare_day self.now) n }
    {
        let (_, remains) = self.quantities.split_at(REQUESTS);
        numbered(&remains[..self.quotes.len()], n, 0)
    }
}
