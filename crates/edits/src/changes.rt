// What each call that is carried out writes. Each leaves the day that the model gives.
ghost use Rattle.std.specs.Prelude.{◌≡◌, ◌+◌, ◌-◌, ◌<◌, length, map};
ghost use Rattle.tables.specs.Tabled.{bare_day};
ghost use Rattle.tables.specs.Used.{used};
ghost use Rattle.venue.specs.declared.rows.Life.TheVariants.{Closed};
ghost use Rattle.venue.specs.Calls.{Call.cancel, Call.close, Call.enter, Call.file, Call.move_clock, Call.offer, Call.pull};
ghost use Rattle.edits.specs.Sweeps.{expired_quote, expired_row};
ghost use Rattle.venue.specs.Model.{apply, ended, ended_as, entered, expired, expired_quotes, filed, offered, shut, side_of, without_old, without_request};

use super::sweeps::sweep;
use tables::facts::is_open;
use tables::inner::{REQUESTS, Tables};
use tables::look::numbered;
use tables::rows::{
    end_quote, end_quote_numbered, end_request, end_request_numbered, file_trade_numbered,
};
use tables::values::{expiry_given, minimum_given, shown_given};
use venue::rows::{Entry, Life, Offering, Quote, Report, Request, Side, Trade};

// The letter was judged before: a `TryFrom` would have to refuse what cannot come.
/// The side that a letter means.
fn side_meant(letter: char) -> Side
    ensures { result ≡ side_of letter }
{
    match letter {
        'B' => Side::Buy,
        _ => Side::Sell,
    }
}

/// The request that an entry makes.
fn request_made(t: &Tables, entry: &Entry) -> Request
    ensures { result ≡ entered (bare_day t.now) entry.now }
{
    Request {
        requestor: entry.user,
        // As in the day: a name that is no symbol's was refused before.
        place: t.place_of(&entry.name).unwrap_or(0),
        recipients: entry.recipients,
        side: side_meant(entry.side),
        quantity: entry.quantity,
        limit: entry.limit,
        minimum: minimum_given(entry.minimum),
        expiry: expiry_given(entry.expiry),
        shown: shown_given(entry.shown),
        life: Life::Open,
    }
}

/// The quote that an offering makes.
fn quote_made(offering: &Offering) -> Quote
    ensures { result ≡ offered offering.now }
{
    Quote {
        user: offering.user,
        request: offering.request,
        quantity: offering.quantity,
        selling: offering.selling,
        buying: offering.buying,
        minimum: minimum_given(offering.minimum),
        expiry: expiry_given(offering.expiry),
        live: true,
    }
}

/// Adds the request of an entry.
pub fn add_request(t: &mut Tables, entry: &Entry)
    requires { length (used t.old.requests) < 128 }
    ensures { bare_day t.new ≡ apply (bare_day t.old) (enter entry.now) }
{
    let row = request_made(t, entry);
    t.quantities[t.requests.len()] = entry.quantity;
    t.requests.push(row);
}

/// Ends the quote that a new one replaces.
fn end_old(quotes: &mut [Quote], old: Option<u16>)
    ensures { quotes.new ≡ without_old old quotes.old }
{
    if let Some(q) = old {
        end_quote_numbered(quotes, q);
    }
}

/// Adds the quote of an offering, and ends the one that it replaces.
pub fn add_quote(t: &mut Tables, offering: &Offering)
    requires { length (used t.old.quotes) < 512 }
    ensures { bare_day t.new ≡ apply (bare_day t.old) (offer offering.now) }
{
    t.quotes.edit(|quotes| end_old(quotes, offering.old));
    t.quantities[REQUESTS + t.quotes.len()] = offering.quantity;
    t.quotes.push(quote_made(offering));
}

/// Ends a quote that is pulled.
pub fn pull_quote(t: &mut Tables, q: u16)
    ensures { bare_day t.new ≡ apply (bare_day t.old) (pull 0 q) }
{
    t.quotes.edit(|quotes| end_quote_numbered(quotes, q));
}

/// Ends the quotes on a request.
fn end_quotes_on(quotes: &mut [Quote], n: u16)
    ensures { quotes.new ≡ without_request n quotes.old }
{
    sweep(quotes, |quote| {
        if quote.request == n {
            end_quote(quote);
        }
    });
}

/// Ends a request that is cancelled, and its quotes.
pub fn cancel_request(t: &mut Tables, n: u16)
    ensures { bare_day t.new ≡ apply (bare_day t.old) (cancel 0 n) }
{
    t.quotes.edit(|quotes| end_quotes_on(quotes, n));
    t.requests.edit(|requests| end_request_numbered(requests, n, Life::Cancelled));
}

/// Ends the requests that have expired at a time.
fn expire_requests(requests: &mut [Request], time: u32)
    ensures { requests.new ≡ expired time requests.old }
{
    sweep(
        requests,
        |request|
            ensures { request.new ≡ expired_row time request.old }
        {
            if request.expiry <= time {
                end_request(request, Life::Expired);
            }
        },
    );
}

/// Ends the quotes that have expired at a time, and those of requests that are not open.
fn expire_quotes(quotes: &mut [Quote], requests: &[Request], time: u32)
    ensures { quotes.new ≡ expired_quotes time requests.now quotes.old }
{
    sweep(
        quotes,
        |quote|
            ensures { quote.new ≡ expired_quote time requests.entry.now quote.old }
        {
            let request = numbered(requests, quote.request, Request::default());
            if quote.expiry <= time || !is_open(request.life) {
                end_quote(quote);
            }
        },
    );
}

/// Moves the clock, and ends what has expired, and the quotes of requests that are not open.
pub fn move_clock(t: &mut Tables, time: u32)
    ensures { bare_day t.new ≡ apply (bare_day t.old) (move_clock time) }
{
    t.requests.edit(|requests| expire_requests(requests, time));
    let requests = t.requests.as_slice();
    t.quotes
        .edit(|quotes| expire_quotes(quotes, requests, time));
    t.clock = time;
}

/// Ends all requests.
fn close_requests(requests: &mut [Request])
    ensures { requests.new ≡ map (ended_as Closed) requests.old }
{
    sweep(requests, |request| end_request(request, Life::Closed));
}

/// Ends all quotes.
fn close_quotes(quotes: &mut [Quote])
    ensures { quotes.new ≡ map ended quotes.old }
{
    sweep(quotes, end_quote);
}

/// Ends all requests and quotes.
pub fn end_all(t: &mut Tables)
    ensures { shut (bare_day t.new) ≡ apply (bare_day t.old) close }
{
    t.requests.edit(close_requests);
    t.quotes.edit(close_quotes);
}

// By number, as a report names them: a part of the slice would have both ends cut to the trades that are there.
/// Marks the trades from the first to the last as filed.
fn file_range(trades: &mut [Trade], first: u16, last: u16)
    ensures { trades.new ≡ filed trades.old first (last + 1 - first) }
{
    for n in first..=last {
        file_trade_numbered(trades, n);
    }
}

/// Marks the trades of a report as filed.
pub fn file_trades(t: &mut Tables, report: &Report)
    ensures { bare_day t.new ≡ apply (bare_day t.old) (file report.now) }
{
    t.trades
        .edit(|trades| file_range(trades, report.first, report.last));
}
