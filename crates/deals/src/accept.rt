// The acceptance of one to eight quotes.
ghost use Rattle.std.specs.Prelude.{◌≡◌, take};
ghost use Rattle.records.specs.Causes.{unless};
ghost use Rattle.venue.specs.Trading.{fills};
ghost use Rattle.venue.specs.Calls.{Call.accept as accepts, accept_causes, causes, form_causes};
ghost use Rattle.tables.specs.Priced.{market_day};
ghost use Rattle.tables.specs.Tabled.{bare_day};
ghost use Rattle.tables.specs.Used.{used};
ghost use Rattle.deals.specs.Dealing.{Deals, Settles};
ghost use Rattle.deals.specs.Filling.{fill_causes, verdict};

use super::line::{has_inexecutable, line_up};
use super::settle::settle;
use super::terms::Terms;
use prices::sources::Source;
use records::causes::Cause;
use tables::inner::{Market, Tables};
use tables::table::Table;
use tables::values::is_amount;
use venue::rows::{Acceptance, Candidate, Report};

/// Judges the form, whatever the day is.
fn judge_form(call: &Acceptance) -> Result<(), Cause>
    ensures { result ≡ unless (form_causes (accepts call.now)) tt }
{
    if call.quotes[0].is_none() {
        return Err(Cause::FieldAbsent);
    }
    if !matches!(call.rest.unwrap_or('C'), 'K' | 'C') {
        return Err(Cause::WrongLetter);
    }
    Ok(())
}

/// Judges the ranges, the caller, and that the request is open and the caller's own.
fn judge_caller(t: &Tables, call: &Acceptance) -> Result<(), Cause>
    ensures { result ≡ unless (take 3 (accept_causes (bare_day t.now) call.now)) tt }
{
    if !is_amount(call.floor.unwrap_or(1)) {
        return Err(Cause::OutOfRange);
    }
    t.judge_owner(call.user, call.request)
}

/// Judges what can be judged before any fill.
fn judge<S: Source>(market: &Market<S>, call: &Acceptance) -> Result<(), Cause>
    ensures { result ≡ unless (take 7 (causes (market_day S.rows S.screen market.now) (accepts call.now))) tt }
{
    judge_form(call)?;
    judge_caller(&market.tables, call)?;
    if has_inexecutable(market, call.request, &call.quotes) {
        return Err(Cause::QuoteNotLive);
    }
    Ok(())
}

/// Fills the quotes of a line and settles, or leaves the tables as they were.
fn deal(t: &mut Tables, call: &Acceptance, line: &Table<Candidate, 8>) -> Result<Report, Cause>
    ensures verdict { verdict result ≡ unless (fill_causes (bare_day t.old) call.now (fills (bare_day t.old) call.now.request (used line.now)).trades) tt }
    ensures settled { Settles call.now (fills (bare_day t.old) call.now.request (used line.now)) t.old t.new result }
{
    let terms = Terms {
        call,
        requests: t.requests.as_slice(),
        quotes: t.quotes.as_slice(),
        trades: t.trades.as_slice(),
    };
    let made = terms.fill(&mut t.quantities, line)?;
    Ok(settle(t, call, made.as_slice()))
}

/// Trades with the named quotes in their order, down to the floor or not at all.
pub fn accept<S: Source>(market: &mut Market<S>, call: &Acceptance) -> Result<Report, Cause>
    ensures deals { Deals (market_day S.rows S.screen market.old) call.now market.old.tables market.new.tables result }
    ensures source { market.new.source ≡ market.old.source }
{
    judge(market, call)?;
    let line = line_up(market, call.request, &call.quotes);
    deal(&mut market.tables, call, &line)
}
