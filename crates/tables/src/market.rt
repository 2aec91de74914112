// Prices now, and which quotes can be traded on now.
ghost use Rattle.std.specs.Prelude.{◌≡◌};
ghost use Rattle.tables.specs.Tabled.{bare_day, enough_on, live_on};
ghost use Rattle.tables.specs.Priced.{market_day};
ghost use Rattle.venue.specs.Trading.{candidate as candidate_of, executable as executable_on, had_now, leg_of as leg_in, limit_price as limit_now, meets as meets_both, met_by, price_now, quote_price as quote_now, within_limit};

use super::facts::is_open;
use super::inner::{Market, Tables};
use prices::pricing::price_at;
use prices::rows::Leg;
use prices::sources::Source;
use records::causes::Refusal;
use records::parts::Price;
use venue::rows::{Candidate, Quote, Side};

/// The leg that a side meets: a buyer a selling one, a seller a buying one.
pub fn leg_met(side: Side) -> Leg
    ensures { result ≡ met_by side }
{
    match side {
        Side::Buy => Leg::Selling,
        Side::Sell => Leg::Buying,
    }
}

/// The price of a quote's leg, if it has that leg.
pub fn leg_of(leg: Leg, quote: Quote) -> Option<Price>
    ensures { result ≡ leg_in leg quote }
{
    match leg {
        Leg::Selling => quote.selling,
        Leg::Buying => quote.buying,
    }
}

// By cases, as in the definition: without both prices there is nothing to compare.
/// Whether a price is at most a buyer's limit, or at least a seller's, where both can be had.
pub fn is_within_limit(side: Side, price: Option<u32>, limit: Option<u32>) -> bool
    ensures { result ≡ within_limit side price limit }
{
    match (price, limit) {
        (Some(price), Some(limit)) => match side {
            Side::Buy => price <= limit,
            Side::Sell => limit <= price,
        },
        _ => false,
    }
}

/// Whether a fill meets both minimums.
pub fn meets(fill: u32, least: u32, own: u32) -> bool
    ensures { result ≡ meets_both fill least own }
{
    least <= fill && own <= fill
}

impl Tables {
    /// Whether request n is open and quote q is a live one on it.
    fn is_live_on(&self, n: u16, q: u16) -> bool
        ensures { result ≡ live_on (bare_day self.now) n q }
    {
        let quote = self.quote(q);
        is_open(self.request(n).life) && quote.live && quote.request == n
    }

    /// Whether the smaller of what is open and what remains meets both minimums.
    fn is_enough(&self, n: u16, q: u16) -> bool
        ensures { result ≡ enough_on (bare_day self.now) n q }
    {
        let fill = self.open(n).min(self.remaining(q));
        meets(fill, self.request(n).minimum, self.quote(q).minimum)
    }
}

impl<S: Source> Market<S> {
    /// What a leg, or a limit that meets it, comes to now, for the symbol at a place.
    pub fn price(&self, place: usize, leg: Leg, price: Price) -> Result<u32, Refusal>
        ensures { result ≡ price_now (market_day S.rows S.screen self.now) place leg price }
    {
        let ticks = self.tables.symbol(place).ticks;
        price_at(&self.source, place, self.tables.clock, ticks, leg, price)
    }

    /// A price that is there and can be had now.
    pub fn price_had(&self, place: usize, leg: Leg, price: Option<Price>) -> Option<u32>
        ensures { result ≡ had_now (market_day S.rows S.screen self.now) place leg price }
    {
        self.price(place, leg, price?).ok()
    }

    /// The price now of the leg of quote q that request n meets.
    pub fn quote_price(&self, n: u16, q: u16) -> Option<u32>
        ensures { result ≡ quote_now (market_day S.rows S.screen self.now) n q }
    {
        let row = self.tables.request(n);
        let leg = leg_met(row.side);
        self.price_had(row.place, leg, leg_of(leg, self.tables.quote(q)))
    }

    /// The price now of the limit of request n.
    pub fn limit_price(&self, n: u16) -> Option<u32>
        ensures { result ≡ limit_now (market_day S.rows S.screen self.now) n }
    {
        let row = self.tables.request(n);
        self.price_had(row.place, leg_met(row.side), Some(row.limit))
    }

    /// Whether quote q can be traded on request n now.
    pub fn is_executable(&self, n: u16, q: u16) -> bool
        ensures { result ≡ executable_on (market_day S.rows S.screen self.now) n q }
    {
        let side = self.tables.request(n).side;
        self.tables.is_live_on(n, q)
            && is_within_limit(side, self.quote_price(n, q), self.limit_price(n))
            && self.tables.is_enough(n, q)
    }

    /// Quote q with what places it in the order of an acceptance on request n.
    pub fn candidate(&self, n: u16, q: u16) -> Candidate
        ensures { result ≡ candidate_of (market_day S.rows S.screen self.now) n q }
    {
        let user = self.tables.quote(q).user;
        Candidate {
            side: self.tables.request(n).side,
            price: self.quote_price(n, q).unwrap_or(0),
            rank: self.tables.user(user).rank,
            remaining: self.tables.remaining(q),
            quote: q,
        }
    }
}
