// The fields of a record, got and set by name.
ghost use Rattle.std.specs.Prelude.{◌≡◌, ◌≤◌, length, take};
ghost use Rattle.records.specs.Bytes.{width};
ghost use Rattle.records.specs.Fields.{byte as byte_of, two as two_of, four as four_of, eight as eight_of, price as price_of, value as value_of, decoded, kept, same};
ghost use Rattle.records.specs.Layout.{shape};

use super::parts::{Field, Price, Record, Value};

/// The first N bytes.
fn front<const N: usize>(bytes: &[u8]) -> [u8; N]
    requires { N ≤ length bytes.now }
    ensures { result ≡ take N bytes.now }
{
    *bytes.first_chunk().unwrap()
}

fn byte(bytes: &[u8]) -> u8
    requires { 1 ≤ length bytes.now }
    ensures { result ≡ byte_of bytes.now }
{
    let [a, ..] = bytes else { unreachable!() };
    *a
}

fn two(bytes: &[u8]) -> u16
    requires { 2 ≤ length bytes.now }
    ensures { result ≡ two_of bytes.now }
{
    let [a, b, ..] = bytes else { unreachable!() };
    u16::from_le_bytes([*a, *b])
}

fn four(bytes: &[u8]) -> u32
    requires { 4 ≤ length bytes.now }
    ensures { result ≡ four_of bytes.now }
{
    let [a, b, c, d, ..] = bytes else {
        unreachable!()
    };
    u32::from_le_bytes([*a, *b, *c, *d])
}

fn eight(bytes: &[u8]) -> u64
    requires { 8 ≤ length bytes.now }
    ensures { result ≡ eight_of bytes.now }
{
    u64::from_le_bytes(front(bytes))
}

fn price(bytes: &[u8]) -> Price
    requires { 5 ≤ length bytes.now }
    ensures { result ≡ price_of bytes.now }
{
    let [letter, number @ ..] = bytes else {
        unreachable!()
    };
    Price {
        letter: char::from(*letter),
        number: four(number),
    }
}

impl Record {
    /// What the field holds.
    pub fn value(&self, field: Field) -> Value
        ensures { result ≡ value_of field self.now }
    {
        match field {
            Field::User => Value::Number(u64::from(self.user)),
            Field::Rank => Value::Number(u64::from(self.rank)),
            Field::Late => Value::Letter(self.late),
            Field::Name => Value::Name(self.name),
            Field::Tick => Value::Number(u64::from(self.tick)),
            Field::Large => Value::Number(self.large),
            Field::Day => Value::Number(u64::from(self.day)),
            Field::Recipients => Value::Number(self.recipients),
            Field::Side => Value::Letter(self.side),
            Field::Quantity => Value::Number(u64::from(self.quantity)),
            Field::Limit => Value::Quoted(self.limit),
            Field::Minimum => Value::Number(u64::from(self.minimum)),
            Field::Expiry => Value::Number(u64::from(self.expiry)),
            Field::Shown => Value::Number(u64::from(self.shown)),
            Field::Request => Value::Number(u64::from(self.request)),
            Field::Old => Value::Number(u64::from(self.old)),
            Field::Selling => Value::Quoted(self.selling),
            Field::Buying => Value::Quoted(self.buying),
            Field::Quote => Value::Number(u64::from(self.quote)),
            Field::Floor => Value::Number(u64::from(self.floor)),
            Field::Rest => Value::Letter(self.rest),
            Field::Second => Value::Number(u64::from(self.second)),
            Field::Third => Value::Number(u64::from(self.third)),
            Field::Fourth => Value::Number(u64::from(self.fourth)),
            Field::Fifth => Value::Number(u64::from(self.fifth)),
            Field::Sixth => Value::Number(u64::from(self.sixth)),
            Field::Seventh => Value::Number(u64::from(self.seventh)),
            Field::Eighth => Value::Number(u64::from(self.eighth)),
            Field::Time => Value::Number(u64::from(self.time)),
            Field::Bid => Value::Number(u64::from(self.bid)),
            Field::Offer => Value::Number(u64::from(self.offer)),
            Field::Letter => Value::Letter(self.letter),
            Field::Leg => Value::Letter(self.leg),
            Field::Open => Value::Number(u64::from(self.open)),
            Field::Requestor => Value::Number(u64::from(self.requestor)),
            Field::Remaining => Value::Number(u64::from(self.remaining)),
            Field::Sells => Value::Number(u64::from(self.sells)),
            Field::Buys => Value::Number(u64::from(self.buys)),
            Field::Trade => Value::Number(u64::from(self.trade)),
            Field::Price => Value::Number(u64::from(self.price)),
            Field::Flag => Value::Letters(self.flag),
        }
    }

    /// Sets the field to what the bytes begin with.
    pub(crate) fn set(&mut self, field: Field, bytes: &[u8])
        requires { width (shape field) ≤ length bytes.now }
        ensures { self.exit.now ≡ kept (same field) (decoded bytes.now) self.entry.now }
    {
        match field {
            Field::User => self.user = byte(bytes),
            Field::Rank => self.rank = byte(bytes),
            Field::Late => self.late = char::from(byte(bytes)),
            Field::Name => self.name = front(bytes),
            Field::Tick => self.tick = four(bytes),
            Field::Large => self.large = eight(bytes),
            Field::Day => self.day = four(bytes),
            Field::Recipients => self.recipients = eight(bytes),
            Field::Side => self.side = char::from(byte(bytes)),
            Field::Quantity => self.quantity = four(bytes),
            Field::Limit => self.limit = price(bytes),
            Field::Minimum => self.minimum = four(bytes),
            Field::Expiry => self.expiry = four(bytes),
            Field::Shown => self.shown = byte(bytes),
            Field::Request => self.request = two(bytes),
            Field::Old => self.old = two(bytes),
            Field::Selling => self.selling = price(bytes),
            Field::Buying => self.buying = price(bytes),
            Field::Quote => self.quote = two(bytes),
            Field::Floor => self.floor = four(bytes),
            Field::Rest => self.rest = char::from(byte(bytes)),
            Field::Second => self.second = two(bytes),
            Field::Third => self.third = two(bytes),
            Field::Fourth => self.fourth = two(bytes),
            Field::Fifth => self.fifth = two(bytes),
            Field::Sixth => self.sixth = two(bytes),
            Field::Seventh => self.seventh = two(bytes),
            Field::Eighth => self.eighth = two(bytes),
            Field::Time => self.time = four(bytes),
            Field::Bid => self.bid = four(bytes),
            Field::Offer => self.offer = four(bytes),
            Field::Letter => self.letter = char::from(byte(bytes)),
            Field::Leg => self.leg = char::from(byte(bytes)),
            Field::Open => self.open = four(bytes),
            Field::Requestor => self.requestor = byte(bytes),
            Field::Remaining => self.remaining = four(bytes),
            Field::Sells => self.sells = four(bytes),
            Field::Buys => self.buys = four(bytes),
            Field::Trade => self.trade = two(bytes),
            Field::Price => self.price = four(bytes),
            Field::Flag => self.flag = front(bytes),
        }
    }
}
