// The lines of a page as records: each field with what the tables and the prices say.
ghost use Rattle.std.specs.Prelude.{◌≡◌, length, if◌then◌else◌};
ghost use Rattle.tables.specs.Tabled.{bare_day};
ghost use Rattle.tables.specs.Priced.{market_day};
ghost use Rattle.venue.specs.Trading.{is_late as is_late_trade};
ghost use Rattle.venue.specs.Pages.{executable_line, leg_now, name_of, quote_line, request_line, side_letter, trade_line};
ghost use Rattle.records.specs.Writing.{encode};
ghost use Rattle.pages.specs.Seats.{Seated};

use prices::rows::Leg;
use prices::sources::Source;
use records::parts::Record;
use tables::inner::{Market, Tables};
use tables::market::leg_of;
use venue::rows::{Candidate, Side, Trade};

/// The fields that every line of a request has: its number, its name and its expiry. From the next bit on stand those that
/// the request may show.
pub(crate) const REQUEST_FIELDS: u16 = 0b111;

pub(crate) const FIRST_SHOWN: u16 = 0b1000;

/// All the fields of a request.
pub(crate) const WHOLE_REQUEST: u16 = 0b1111_1111;

/// The fields that every line of a quote has, and the prices of its legs.
const QUOTE_FIELDS: u16 = 0b110_0111;

const SELLS: u16 = 0b1000;

const BUYS: u16 = 0b1_0000;

/// The fields that every line of a trade has, and the letters of a late one.
const TRADE_FIELDS: u16 = 0b1_1111;

const FLAG: u16 = 0b10_0000;

/// The fields of an executable quote.
const EXECUTABLE_FIELDS: u16 = 0b111;

// No `From`: a side is `venue`'s, and its letter is asked for here alone.
/// B or S.
fn letter_of(side: Side) -> char
    ensures { result ≡ side_letter side }
{
    match side {
        Side::Buy => 'B',
        Side::Sell => 'S',
    }
}

/// A bit of a map, if it is to stand.
fn bit_if(stands: bool, bit: u16) -> u16
    ensures { result ≡ (if stands then bit else 0) }
{
    if stands { bit } else { 0 }
}

/// Whether a trade is late: its value is large, and one of its users may be late.
fn is_late(t: &Tables, trade: Trade) -> bool
    ensures { result ≡ is_late_trade (bare_day t.now) trade }
{
    let large = t.symbol(t.request(trade.request).place).large;
    let value = u64::from(trade.quantity) * u64::from(trade.price);
    large <= value && (t.user(trade.buyer).late || t.user(trade.seller).late)
}

/// Tables with a symbol for every request, so that lines can name it.
#[derive(Drop)]
pub(crate) struct Seats<'a> {
    pub t: &'a Tables,
    ghost seated: { Seated t.now },
}

impl<'a> Seats<'a> {
    /// The name of the symbol of request n.
    pub fn name(&self, n: u16) -> [u8; 8]
        ensures value { result ≡ name_of (bare_day self.now.t.now) n }
        ensures eight { length result ≡ 8 }
    {
        self.t.symbol(self.t.request(n).place).name
    }

    /// Request n, with the fields of the bit map.
    pub fn request_record(&self, map: u16, n: u16) -> Record
        ensures { encode 114 result ≡ request_line (bare_day self.now.t.now) map n }
    {
        let row = self.t.request(n);
        Record {
            request: n,
            name: self.name(n),
            expiry: row.expiry,
            side: letter_of(row.side),
            open: self.t.open(n),
            limit: row.limit,
            minimum: row.minimum,
            requestor: row.requestor,
            ..Record::blank(map)
        }
    }

    /// Trade n, with the user's own side, and LRGS where it is late.
    pub fn trade_record(&self, user: u8, n: u16) -> Record
        ensures { encode 116 result ≡ trade_line (bare_day self.now.t.now) user n }
    {
        let trade = self.t.trade(n);
        let map = TRADE_FIELDS + bit_if(is_late(self.t, trade), FLAG);
        Record {
            trade: n,
            name: self.name(trade.request),
            side: if trade.buyer == user { 'B' } else { 'S' },
            quantity: trade.quantity,
            price: trade.price,
            flag: *b"LRGS",
            ..Record::blank(map)
        }
    }
}

/// The price now of a leg of quote q.
fn leg_price<S: Source>(market: &Market<S>, leg: Leg, q: u16) -> Option<u32>
    ensures { result ≡ leg_now (market_day S.rows S.screen market.now) leg q }
{
    let row = market.tables.quote(q);
    let place = market.tables.request(row.request).place;
    market.price_had(place, leg, leg_of(leg, row))
}

/// Quote q, with the price of each leg that can be had now.
pub(crate) fn quote_record<S: Source>(market: &Market<S>, q: u16) -> Record
    ensures { encode 113 result ≡ quote_line (market_day S.rows S.screen market.now) q }
{
    let row = market.tables.quote(q);
    let sells = leg_price(market, Leg::Selling, q);
    let buys = leg_price(market, Leg::Buying, q);
    let map = QUOTE_FIELDS + bit_if(sells.is_some(), SELLS) + bit_if(buys.is_some(), BUYS);
    Record {
        quote: q,
        request: row.request,
        remaining: market.tables.remaining(q),
        sells: sells.unwrap_or(0),
        buys: buys.unwrap_or(0),
        minimum: row.minimum,
        expiry: row.expiry,
        ..Record::blank(map)
    }
}

/// An executable quote.
pub(crate) fn executable_record(candidate: &Candidate) -> Record
    ensures { encode 101 result ≡ executable_line candidate.now }
{
    Record {
        quote: candidate.quote,
        remaining: candidate.remaining,
        price: candidate.price,
        ..Record::blank(EXECUTABLE_FIELDS)
    }
}
