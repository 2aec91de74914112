// The call that a record of each kind makes.
#![tactic(auto)]

ghost use Rattle.std.specs.Prelude.{◌≡◌, ◌<◌};
ghost use Rattle.calls.specs.Made.{acceptance_of as acceptance_made, entry_of as entry_made, new_symbol_of as new_symbol_made, new_user_of as new_user_made, offering_of as offering_made, posting_of as posting_made, price_question_of as price_question_made, quotes_of as quotes_made, where_stands as if_standing};

use records::parts::Record;
use venue::rows::{Acceptance, Entry, NewSymbol, NewUser, Offering, Posting, PriceQuestion};

/// A value, where its bit of a map stands.
fn where_stands<T: Copy>(map: u16, i: u32, value: T) -> Option<T>
    requires { i < 16 }
    ensures { result ≡ if_standing map i value }
{
    ((map >> i) & 1 == 1).then_some(value)
}

// An impl of `From` belongs to the crate of one of its two types, and this is neither: so each conversion is a function.

/// The user of a record U.
pub fn new_user_of(fields: &Record) -> NewUser
    ensures { result ≡ new_user_made fields.now }
{
    NewUser {
        user: fields.user,
        rank: fields.rank,
        late: fields.late,
    }
}

/// The symbol of a record S.
pub fn new_symbol_of(fields: &Record) -> NewSymbol
    ensures { result ≡ new_symbol_made fields.now }
{
    NewSymbol {
        name: fields.name,
        tick: fields.tick,
        large: fields.large,
    }
}

/// The entry of a record R.
pub fn entry_of(fields: &Record) -> Entry
    ensures { result ≡ entry_made fields.now }
{
    Entry {
        user: fields.user,
        name: fields.name,
        recipients: fields.recipients,
        side: fields.side,
        quantity: fields.quantity,
        limit: fields.limit,
        minimum: where_stands(fields.map, 6, fields.minimum),
        expiry: where_stands(fields.map, 7, fields.expiry),
        shown: where_stands(fields.map, 8, fields.shown),
    }
}

/// The quote of a record Q.
pub fn offering_of(fields: &Record) -> Offering
    ensures { result ≡ offering_made fields.now }
{
    Offering {
        user: fields.user,
        request: fields.request,
        old: where_stands(fields.map, 2, fields.old),
        quantity: fields.quantity,
        selling: where_stands(fields.map, 4, fields.selling),
        buying: where_stands(fields.map, 5, fields.buying),
        minimum: where_stands(fields.map, 6, fields.minimum),
        expiry: where_stands(fields.map, 7, fields.expiry),
    }
}

/// The quotes that a record A names.
fn quotes_of(fields: &Record) -> [Option<u16>; 8]
    ensures { result ≡ quotes_made fields.now }
{
    // Each is a field of its own, with a bit of its own: a loop over them would begin with the same list.
    [
        where_stands(fields.map, 4, fields.quote),
        where_stands(fields.map, 5, fields.second),
        where_stands(fields.map, 6, fields.third),
        where_stands(fields.map, 7, fields.fourth),
        where_stands(fields.map, 8, fields.fifth),
        where_stands(fields.map, 9, fields.sixth),
        where_stands(fields.map, 10, fields.seventh),
        where_stands(fields.map, 11, fields.eighth),
    ]
}

/// The acceptance of a record A.
pub fn acceptance_of(fields: &Record) -> Acceptance
    ensures { result ≡ acceptance_made fields.now }
{
    Acceptance {
        user: fields.user,
        request: fields.request,
        floor: where_stands(fields.map, 2, fields.floor),
        rest: where_stands(fields.map, 3, fields.rest),
        quotes: quotes_of(fields),
    }
}

/// The posting of a record M.
pub fn posting_of(fields: &Record) -> Posting
    ensures { result ≡ posting_made fields.now }
{
    Posting {
        name: fields.name,
        bid: where_stands(fields.map, 1, fields.bid),
        offer: where_stands(fields.map, 2, fields.offer),
    }
}

/// The question of a record K.
pub fn price_question_of(fields: &Record) -> PriceQuestion
    ensures { result ≡ price_question_made fields.now }
{
    PriceQuestion {
        name: fields.name,
        letter: fields.letter,
        leg: fields.leg,
    }
}
