// The judges: for each call the first cause, in the order of their numbers.
ghost use Rattle.std.specs.Prelude.{◌≡◌, ◌&&◌, if◌then◌else◌, Some, None};
ghost use Rattle.records.specs.Causes.{unless};
ghost use Rattle.tables.specs.Tabled.{bare_day};
ghost use Rattle.venue.specs.Calls.{Call.ask_price, Call.cancel, Call.enter, Call.move_clock, Call.offer, Call.post, Call.pull, caller_causes, form_causes};
ghost use Rattle.venue.specs.Parts.{below_shown, offering_off_tick, place_causes, shown_causes, term_causes};
ghost use Rattle.venue.specs.Days.{quotable, request_of, shows_side, symbol_of};
ghost use Rattle.venue.specs.Model.{judge};

use super::facts::{
    are_recipients_wrong, is_entry_off_tick, is_full_of_quotes, is_full_of_requests,
    is_old_not_live, is_unknown_name,
};
use records::causes::Cause;
use tables::inner::Tables;
use tables::names::is_name;
use tables::values::{
    expiry_given, has_bit, is_entry_beyond, is_entry_misformed, is_offering_beyond,
    is_offering_misformed, is_offering_off_tick, is_posting_beyond, is_posting_halved,
    minimum_given,
};
use venue::rows::{Entry, Offering, Posting, PriceQuestion, Request, Side};

/// The last time to which the clock moves.
const LAST_TIME: u32 = 62_999_999;

// One test for each cause, in the order of the numbers, as in the definitions; so in every judge.
/// Whether an entry is taken.
pub fn judge_entry(t: &Tables, entry: &Entry) -> Result<(), Cause>
    ensures { result ≡ judge (bare_day t.now) (enter entry.now) }
{
    if is_entry_misformed(entry) {
        return Err(Cause::WrongLetter);
    }
    if is_entry_beyond(entry) {
        return Err(Cause::OutOfRange);
    }
    if t.is_unknown_user(entry.user) {
        return Err(Cause::UnknownUser);
    }
    if is_unknown_name(t, &entry.name) {
        return Err(Cause::UnknownSymbol);
    }
    if are_recipients_wrong(t, entry) {
        return Err(Cause::WrongRecipients);
    }
    if is_entry_off_tick(t, entry) {
        return Err(Cause::OffTick);
    }
    if entry.quantity < minimum_given(entry.minimum) {
        return Err(Cause::MinimumAboveQuantity);
    }
    if expiry_given(entry.expiry) <= t.clock {
        return Err(Cause::NotAfterClock);
    }
    if is_full_of_requests(t) {
        return Err(Cause::DayFull);
    }
    Ok(())
}

/// The side that a request shows.
fn shown_side(row: &Request) -> Option<Side>
    ensures { result ≡ (if shows_side row.now then Some row.now.side else None) }
{
    has_bit(u64::from(row.shown), 0).then_some(row.side)
}

/// Whether the quantity of a quote is below a minimum that the request shows.
fn is_below_shown(row: &Request, offering: &Offering) -> bool
    ensures { result ≡ below_shown row.now offering.now }
{
    has_bit(u64::from(row.shown), 3) && offering.quantity < row.minimum
}

/// Whether the legs and the quantity of a quote stand against what its request shows.
fn judge_legs(row: &Request, offering: &Offering) -> Result<(), Cause>
    ensures { result ≡ unless (shown_causes row.now offering.now) tt }
{
    let low = is_below_shown(row, offering);
    match (shown_side(row), offering.selling, offering.buying) {
        (Some(Side::Buy), _, Some(_)) => Err(Cause::LegAgainstSide),
        (Some(Side::Sell), Some(_), _) => Err(Cause::LegAgainstSide),
        _ if low => Err(Cause::BelowShownMinimum),
        _ => Ok(()),
    }
}

/// Whether a leg of a quote is off the tick of the request's symbol, where the request is one that the user may quote on.
fn is_quote_off_tick(t: &Tables, offering: &Offering) -> bool
    ensures { result ≡ (quotable (bare_day t.now) offering.now.user offering.now.request && offering_off_tick (symbol_of (bare_day t.now) (request_of (bare_day t.now) offering.now.request).place).ticks offering.now) }
{
    let place = t.request(offering.request).place;
    t.is_quotable(offering.user, offering.request)
        && is_offering_off_tick(t.symbol(place).ticks, offering)
}

/// Whether a quote lacks both legs, or the form of one is wrong.
fn judge_form(offering: &Offering) -> Result<(), Cause>
    ensures { result ≡ unless (form_causes (offer offering.now)) tt }
{
    if offering.selling.is_none() && offering.buying.is_none() {
        return Err(Cause::FieldAbsent);
    }
    if is_offering_misformed(offering) {
        return Err(Cause::WrongLetter);
    }
    Ok(())
}

/// Whether the terms of a quote are in order.
fn judge_terms(t: &Tables, offering: &Offering) -> Result<(), Cause>
    ensures { result ≡ unless (term_causes (bare_day t.now) offering.now) tt }
{
    if is_offering_beyond(offering) {
        return Err(Cause::OutOfRange);
    }
    if t.is_unknown_user(offering.user) {
        return Err(Cause::UnknownUser);
    }
    if is_quote_off_tick(t, offering) {
        return Err(Cause::OffTick);
    }
    if offering.quantity < minimum_given(offering.minimum) {
        return Err(Cause::MinimumAboveQuantity);
    }
    if expiry_given(offering.expiry) <= t.clock {
        return Err(Cause::NotAfterClock);
    }
    Ok(())
}

/// Whether there is a place for a quote.
fn judge_place(t: &Tables, offering: &Offering) -> Result<(), Cause>
    ensures { result ≡ unless (place_causes (bare_day t.now) offering.now) tt }
{
    if !t.is_quotable(offering.user, offering.request) {
        return Err(Cause::RequestNotOpen);
    }
    if is_old_not_live(t, offering) {
        return Err(Cause::QuoteNotLive);
    }
    if is_full_of_quotes(t) {
        return Err(Cause::DayFull);
    }
    Ok(())
}

/// Whether a quote is taken.
pub fn judge_offering(t: &Tables, offering: &Offering) -> Result<(), Cause>
    ensures { result ≡ judge (bare_day t.now) (offer offering.now) }
{
    judge_form(offering)?;
    judge_terms(t, offering)?;
    judge_place(t, offering)?;
    judge_legs(&t.request(offering.request), offering)
}

/// Whether a quote can be pulled.
pub fn judge_pull(t: &Tables, user: u8, quote: u16) -> Result<(), Cause>
    ensures { result ≡ judge (bare_day t.now) (pull user quote) }
{
    t.judge_caller(user)?;
    if !t.holds(user, quote) {
        return Err(Cause::QuoteNotLive);
    }
    Ok(())
}

/// Whether a request can be cancelled.
pub fn judge_cancel(t: &Tables, user: u8, request: u16) -> Result<(), Cause>
    ensures { result ≡ judge (bare_day t.now) (cancel user request) }
{
    t.judge_owner(user, request)
}

/// Whether a posting is taken.
pub fn judge_posting(t: &Tables, posting: &Posting) -> Result<(), Cause>
    ensures { result ≡ judge (bare_day t.now) (post posting.now) }
{
    if is_posting_halved(posting) {
        return Err(Cause::FieldAbsent);
    }
    if is_posting_beyond(posting) {
        return Err(Cause::OutOfRange);
    }
    if is_unknown_name(t, &posting.name) {
        return Err(Cause::UnknownSymbol);
    }
    Ok(())
}

/// Whether the clock can be moved to a time.
pub fn judge_time(t: &Tables, time: u32) -> Result<(), Cause>
    ensures { result ≡ judge (bare_day t.now) (move_clock time) }
{
    if time > LAST_TIME {
        return Err(Cause::OutOfRange);
    }
    if time < t.clock {
        return Err(Cause::NotAfterClock);
    }
    Ok(())
}

/// Whether a price can be asked for.
pub fn judge_question(t: &Tables, question: &PriceQuestion) -> Result<(), Cause>
    ensures { result ≡ judge (bare_day t.now) (ask_price question.now) }
{
    if !matches!(
        (question.letter, question.leg),
        ('B' | 'O' | 'M', 'B' | 'S')
    ) {
        return Err(Cause::WrongLetter);
    }
    if !is_name(&question.name) {
        return Err(Cause::OutOfRange);
    }
    if is_unknown_name(t, &question.name) {
        return Err(Cause::UnknownSymbol);
    }
    Ok(())
}
