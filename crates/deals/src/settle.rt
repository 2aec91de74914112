// What an acceptance that is kept leaves of requests, quotes and trades.
ghost use Rattle.std.specs.Prelude.{◌≡◌, ◌+◌, ◌≤◌, ◌&&◌, ◌||◌, List, length, if◌then◌else◌, ◌==◌};
ghost use Rattle.prices.specs.declared.rows.Row.{Row};
ghost use Rattle.prices.specs.Rows.{Screen};
ghost use Rattle.venue.specs.declared.rows.Life.TheVariants.{Accepted};
ghost use Rattle.venue.specs.Days.{no_request, numbered as row_numbered};
ghost use Rattle.venue.specs.Trading.{renumbered};
ghost use Rattle.venue.specs.Calls.{rest_of};
ghost use Rattle.venue.specs.Model.{ended_as, ended_if, settled, settled_quotes};
ghost use Rattle.tables.specs.Tabled.{bare_day, day_of};
ghost use Rattle.tables.specs.Used.{used};
ghost use Rattle.deals.specs.Filling.{filled_on};

use tables::inner::{REQUESTS, Tables};
use tables::rows::{end_quote, end_request_numbered};
use venue::rows::{Acceptance, Life, Quote, Report, Request, Trade};

// The letter of the call, which was judged before: nothing but this question asks it.
/// Whether the request ends: the rest is cancelled, or nothing is open.
fn is_over(rest: Option<char>, left: u32) -> bool
    ensures { result ≡ (rest_of rest == 67 || left == 0) }
{
    rest.unwrap_or('C') == 'C' || left == 0
}

// Which request, and whether it is over, go through three small functions: a struct of the two would say no more.
/// Ends request n, if it is over.
fn end_if_over(requests: &mut [Request], n: u16, over: bool)
    ensures { requests.new ≡ (if over then renumbered requests.old n (ended_as Accepted (row_numbered no_request requests.old n)) else requests.old) }
{
    if over {
        end_request_numbered(requests, n, Life::Accepted);
    }
}

/// Ends a quote of request n that has nothing remaining, and any of its quotes where the request is over.
fn settle_quote(quote: &mut Quote, remaining: u32, n: u16, over: bool)
    ensures { quote.new ≡ ended_if (quote.old.request == n && (over || remaining == 0)) quote.old }
{
    if quote.request == n && (over || remaining == 0) {
        end_quote(quote);
    }
}

/// Ends the quotes that end with the acceptance.
fn end_quotes(quotes: &mut [Quote], remains: &[u32], n: u16, over: bool)
    requires { length remains.now ≡ length quotes.old }
    ensures { quotes.new ≡ settled_quotes n over quotes.old remains.now }
{
    // By place: of rows that `iter_mut` lends under `zip`, a proof does not know what they become.
    for (i, quote) in quotes.iter_mut().enumerate() {
        settle_quote(quote, remains[i], n, over);
    }
}

/// Settles an acceptance whose fills are kept, and says which trades are to be reported.
pub fn settle(t: &mut Tables, call: &Acceptance, made: &[Trade]) -> Report
    requires { length (used t.old.trades) + length made.now ≤ 512 }
    ensures day { (rows : List Row) (screen : Screen) → day_of t.new rows screen ≡ settled (day_of t.old rows screen) call.now (filled_on (bare_day t.old) call.now.request made.now) }
    ensures report { result ≡ record { day = t.old.number; first = length (used t.old.trades) + 1; last = length (used t.old.trades) + length made.now } }
{
    let n = call.request;
    let over = is_over(call.rest, t.open(n));
    t.requests.edit(|requests| end_if_over(requests, n, over));
    let (_, remains) = t.quantities.split_at(REQUESTS);
    let remains = &remains[..t.quotes.len()];
    t.quotes.edit(|quotes| end_quotes(quotes, remains, n, over));
    let before = t.trades.len();
    t.trades.extend_from_slice(made);
    Report {
        day: t.number,
        first: (before + 1) as u16,
        last: (before + made.len()) as u16,
    }
}
