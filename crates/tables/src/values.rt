// What is asked of the values of a call, whatever the day is.
ghost use Rattle.std.specs.Prelude.{◌≡◌, not, ◌||◌, is_some, if◌then◌else◌, nat_le};
ghost use Rattle.venue.specs.Calls.{a_price, amount, beyond, expiry_of, minimum_of, misformed, off_tick, shown_of, whenever};
ghost use Rattle.venue.specs.Parts.{entry_beyond, entry_misformed, offering_beyond, offering_off_tick, posting_beyond};
ghost use Rattle.venue.specs.Days.{bit};

use super::names::is_name;
use prices::rows::Ticks;
use records::checks::price_fits;
use records::parts::Price;
use venue::rows::{Entry, Offering, Posting};

/// The highest quantity, the highest price and the highest expiry.
const MOST_AMOUNT: u32 = 99_999_999;

const MOST_PRICE: u32 = 999_999_999;

const LAST_EXPIRY: u32 = 63_000_000;

/// The highest number of a user, and the highest set of fields that can be shown.
const LAST_USER: u8 = 63;

const MOST_SHOWN: u8 = 31;

/// A minimum that lacks is 1, an expiry the end of the day, and a shown set shows nothing.
pub fn minimum_given(minimum: Option<u32>) -> u32
    ensures { result ≡ minimum_of minimum }
{
    minimum.unwrap_or(1)
}

pub fn expiry_given(expiry: Option<u32>) -> u32
    ensures { result ≡ expiry_of expiry }
{
    expiry.unwrap_or(LAST_EXPIRY)
}

pub fn shown_given(shown: Option<u8>) -> u8
    ensures { result ≡ shown_of shown }
{
    shown.unwrap_or(0)
}

/// Whether a number can be a quantity, a minimum or a floor.
pub fn is_amount(n: u32) -> bool
    ensures { result ≡ amount n }
{
    (1..=MOST_AMOUNT).contains(&n)
}

/// Whether a number can be a price.
fn is_price(n: u32) -> bool
    ensures { result ≡ a_price n }
{
    (1..=MOST_PRICE).contains(&n)
}

/// Whether a price has a number of its own that is out of range.
fn is_beyond(price: Price) -> bool
    ensures { result ≡ beyond price }
{
    price.letter == 'L' && !is_price(price.number)
}

/// Whether a price has a number of its own that is no multiple of the tick.
pub fn is_off_tick(ticks: Ticks, price: Price) -> bool
    ensures { result ≡ off_tick ticks price }
{
    let tick = ticks.at(2 * u64::from(price.number));
    price.letter == 'L' && !price.number.is_multiple_of(tick)
}

/// Whether a set has the bit of a user.
pub fn has_bit(set: u64, user: u8) -> bool
    ensures { result ≡ bit set user }
{
    u32::from(user) < u64::BITS && (set >> user) % 2 == 1
}

/// Whether a number can be a user's.
pub fn is_user(user: u8) -> bool
    ensures { result ≡ nat_le user 63 }
{
    user <= LAST_USER
}

/// Whether a letter, the form of a price or the shown set of an entry is wrong.
pub fn is_entry_misformed(entry: &Entry) -> bool
    ensures { result ≡ entry_misformed entry.now }
{
    !matches!(entry.side, 'B' | 'S')
        || !price_fits(entry.limit)
        || shown_given(entry.shown) > MOST_SHOWN
}

/// Whether a value or the name of an entry is out of range.
pub fn is_entry_beyond(entry: &Entry) -> bool
    ensures { result ≡ entry_beyond entry.now }
{
    !is_user(entry.user)
        || !is_name(&entry.name)
        || !is_amount(entry.quantity)
        || is_beyond(entry.limit)
        || !is_amount(minimum_given(entry.minimum))
        || expiry_given(entry.expiry) > LAST_EXPIRY
}

/// Whether the form of a leg of a quote is wrong.
pub fn is_offering_misformed(offering: &Offering) -> bool
    ensures { result ≡ (whenever offering.now.selling misformed || whenever offering.now.buying misformed) }
{
    offering.selling.is_some_and(|price| !price_fits(price))
        || offering.buying.is_some_and(|price| !price_fits(price))
}

/// Whether a value of a quote is out of range.
pub fn is_offering_beyond(offering: &Offering) -> bool
    ensures { result ≡ offering_beyond offering.now }
{
    !is_user(offering.user)
        || !is_amount(offering.quantity)
        || offering.selling.is_some_and(is_beyond)
        || offering.buying.is_some_and(is_beyond)
        || !is_amount(minimum_given(offering.minimum))
        || expiry_given(offering.expiry) > LAST_EXPIRY
}

/// Whether a leg of a quote is off the tick.
pub fn is_offering_off_tick(ticks: Ticks, offering: &Offering) -> bool
    ensures { result ≡ offering_off_tick ticks offering.now }
{
    offering
        .selling
        .is_some_and(|price| is_off_tick(ticks, price))
        || offering
            .buying
            .is_some_and(|price| is_off_tick(ticks, price))
}

/// Whether a posting has one of its two prices alone.
pub fn is_posting_halved(posting: &Posting) -> bool
    ensures { result ≡ (if is_some posting.now.bid then not (is_some posting.now.offer) else is_some posting.now.offer) }
{
    posting.bid.is_some() != posting.offer.is_some()
}

/// Whether the name or a price of a posting is out of range.
pub fn is_posting_beyond(posting: &Posting) -> bool
    ensures { result ≡ posting_beyond posting.now }
{
    !is_name(&posting.name)
        || posting.bid.is_some_and(|price| !is_price(price))
        || posting.offer.is_some_and(|price| !is_price(price))
}
