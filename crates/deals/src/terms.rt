// What the fills of an acceptance go by, and how they are judged.
ghost use Rattle.std.specs.Prelude.{◌≡◌, ◌≤◌, length};
ghost use Rattle.records.specs.Causes.{unless};
ghost use Rattle.venue.specs.Days.{quote_of, request_of};
ghost use Rattle.venue.specs.Trading.{meets as meets_both, total as total_of, trade_of_fill};
ghost use Rattle.tables.specs.Used.{used};

use super::line::has_double;
use records::causes::Cause;
use tables::inner::TRADES;
use tables::look::numbered;
use tables::market::meets;
use tables::table::Table;
use venue::rows::{Acceptance, Candidate, Quote, Request, Side, Trade};

// It is copied and no more: nobody compares or shows it.
/// What the fills of an acceptance go by: the call, and the rows of the day that they only read.
#[derive(Clone, Copy)]
pub struct Terms<'a> {
    pub call: &'a Acceptance,
    pub requests: &'a [Request],
    pub quotes: &'a [Quote],
    pub trades: &'a [Trade],
    ghost few_requests: { length requests.now ≤ 128 },
    ghost few_quotes: { length quotes.now ≤ 512 },
    ghost few_trades: { length trades.now ≤ 512 },
}

/// The quantities of trades, together.
fn total(trades: &[Trade]) -> u64
    requires { length trades.now ≤ 8 }
    ensures { result ≡ total_of trades.now }
{
    trades.iter().map(|trade| u64::from(trade.quantity)).sum()
}

impl Terms<'_> {
    ghost use Rattle.deals.specs.Filling.{fill_causes, terms_day};

    /// The request that is traded on.
    pub fn request(&self) -> Request
        ensures { result ≡ request_of (terms_day self.now) self.now.call.now.request }
    {
        numbered(self.requests, self.call.request, Request::default())
    }

    /// The quote with a number.
    pub fn quote(&self, q: u16) -> Quote
        ensures { result ≡ quote_of (terms_day self.now) q }
    {
        numbered(self.quotes, q, Quote::default())
    }

    /// Whether a fill meets the minimums of the request and of quote q.
    pub fn is_met(&self, q: u16, fill: u32) -> bool
        ensures { result ≡ meets_both fill (request_of (terms_day self.now) self.now.call.now.request).minimum (quote_of (terms_day self.now) q).minimum }
    {
        meets(fill, self.request().minimum, self.quote(q).minimum)
    }

    /// The trade that a fill makes.
    pub fn trade_of(&self, row: Candidate, fill: u32) -> Trade
        ensures { result ≡ trade_of_fill (terms_day self.now) self.now.call.now.request row fill }
    {
        let request = self.request();
        let user = self.quote(row.quote).user;
        let (buyer, seller) = match request.side {
            Side::Buy => (request.requestor, user),
            Side::Sell => (user, request.requestor),
        };
        Trade {
            request: self.call.request,
            quote: row.quote,
            buyer,
            seller,
            quantity: fill,
            price: row.price,
            filed: false,
        }
    }

    /// Judges the fills: whether the day has room for their trades, a quote was named twice, the floor is reached.
    pub fn judge(&self, made: &Table<Trade, 8>) -> Result<(), Cause>
        ensures { result ≡ unless (fill_causes (terms_day self.now) self.now.call.now (used made.now)) tt }
    {
        if self.trades.len() + made.len() > TRADES {
            return Err(Cause::DayFull);
        }
        if has_double(&self.call.quotes) {
            return Err(Cause::NamedTwice);
        }
        if total(made.as_slice()) < u64::from(self.call.floor.unwrap_or(1)) {
            return Err(Cause::BelowFloor);
        }
        Ok(())
    }
}
