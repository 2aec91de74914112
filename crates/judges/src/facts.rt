// What a judge asks of the tables.
ghost use Rattle.std.specs.Prelude.{◌≡◌, not, ◌&&◌, length, nat_le};
ghost use Rattle.tables.specs.Tabled.{bare_day};
ghost use Rattle.venue.specs.Calls.{has_stranger as stranger_in, unknown_name};
ghost use Rattle.venue.specs.Parts.{entry_off_tick, old_not_live, wrong_recipients};
ghost use Rattle.venue.specs.Days.{bit, user_of};

use tables::inner::Tables;
use tables::names::is_name;
use tables::values::{has_bit, is_off_tick};
use venue::rows::{Entry, Offering};

/// Whether a name could be a symbol's and is none.
pub fn is_unknown_name(t: &Tables, name: &[u8; 8]) -> bool
    ensures { result ≡ unknown_name (bare_day t.now) name.now }
{
    is_name(name) && t.place_of(name).is_none()
}

/// Whether a user is in a set and was not entered.
fn is_stranger(t: &Tables, set: u64, user: u8) -> bool
    ensures { result ≡ (bit set user && not (user_of (bare_day t.now) user).entered) }
{
    has_bit(set, user) && !t.user(user).entered
}

/// Whether a set of users has one who was not entered.
fn has_stranger(t: &Tables, set: u64) -> bool
    ensures { result ≡ stranger_in (bare_day t.now) set 64 }
{
    (0..64u8).any(|user| is_stranger(t, set, user))
}

/// Whether the recipients are none, or hold a stranger or the requestor.
pub fn are_recipients_wrong(t: &Tables, entry: &Entry) -> bool
    ensures { result ≡ wrong_recipients (bare_day t.now) entry.now }
{
    let recipients = entry.recipients;
    recipients == 0 || has_stranger(t, recipients) || has_bit(recipients, entry.user)
}

/// Whether the limit of an entry is off the tick of its symbol.
pub fn is_entry_off_tick(t: &Tables, entry: &Entry) -> bool
    ensures { result ≡ entry_off_tick (bare_day t.now) entry.now }
{
    t.place_of(&entry.name)
        .is_some_and(|place| is_off_tick(t.symbol(place).ticks, entry.limit))
}

/// Whether a quote names an old one that is no live one of the caller's on that request.
pub fn is_old_not_live(t: &Tables, offering: &Offering) -> bool
    ensures { result ≡ old_not_live (bare_day t.now) offering.now }
{
    offering.old.is_some_and(|q| !(t.holds(offering.user, q)
        && t.quote(q).request == offering.request))
}

/// Whether the day has no room for another request.
pub fn is_full_of_requests(t: &Tables) -> bool
    ensures { result ≡ nat_le 128 (length (bare_day t.now).requests) }
{
    t.requests.is_full()
}

/// Whether the day has no room for another quote.
pub fn is_full_of_quotes(t: &Tables) -> bool
    ensures { result ≡ nat_le 512 (length (bare_day t.now).quotes) }
{
    t.quotes.is_full()
}
