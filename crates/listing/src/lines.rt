// The text of one record: its fields by name, as a person reads them.
ghost use Rattle.std.specs.Prelude.{◌≡◌, ◌<◌, ◌≤◌, ◌++◌, map, length, Some, IfSome, OnOk};
ghost use Rattle.std.specs.List.{flat_map};
ghost use Rattle.records.specs.Writing.{fields_of};
ghost use Rattle.listing.specs.Lines.{cause_text, digit as digit_of, field_text, head_text, hex as hex_of, label as label_of, name_text, names_from, price_text, record_line, refusal_line, shown_text, sign as sign_of, users_text, value_text};

use records::causes::Refusal;
use records::parts::{Field, Kind, Price, Record, Shape, Value};
use std::alloc::AllocError;
use std::fmt::{self, Display};

// The listing's own words: elsewhere a field has no text.
/// The name of a field.
fn label(field: Field) -> &'static str
    ensures { result.now ≡ label_of field }
{
    match field {
        Field::User => "user",
        Field::Rank => "rank",
        Field::Late => "late",
        Field::Name => "name",
        Field::Tick => "tick",
        Field::Large => "large",
        Field::Day => "day",
        Field::Recipients => "recipients",
        Field::Side => "side",
        Field::Quantity => "quantity",
        Field::Limit => "limit",
        Field::Minimum => "minimum",
        Field::Expiry => "expiry",
        Field::Shown => "shown",
        Field::Request => "request",
        Field::Old => "old",
        Field::Selling => "selling",
        Field::Buying => "buying",
        Field::Quote => "quote",
        Field::Floor => "floor",
        Field::Rest => "rest",
        Field::Second => "second",
        Field::Third => "third",
        Field::Fourth => "fourth",
        Field::Fifth => "fifth",
        Field::Sixth => "sixth",
        Field::Seventh => "seventh",
        Field::Eighth => "eighth",
        Field::Time => "time",
        Field::Bid => "bid",
        Field::Offer => "offer",
        Field::Letter => "letter",
        Field::Leg => "leg",
        Field::Open => "open",
        Field::Requestor => "requestor",
        Field::Remaining => "remaining",
        Field::Sells => "sells",
        Field::Buys => "buys",
        Field::Trade => "trade",
        Field::Price => "price",
        Field::Flag => "flag",
    }
}

/// Adds what a value shows.
pub fn add<D: Display + Drop>(text: &mut Vec<u8>, value: D) -> Result<(), AllocError>
    ensures { OnOk result (IfSome (D.output value) (λ bs. text.new.items ≡ text.old.items ++ bs)) }
{
    let shown = String::format(*text.allocator(), value)?;
    text.extend_from_slice(shown.as_bytes())
}

// By number: the users of a set are its bits, and the number is what is shown.
/// Adds a set of users: the number of each whose bit stands.
fn add_users(text: &mut Vec<u8>, users: u64) -> Result<(), AllocError>
    ensures { OnOk result (text.new.items ≡ text.old.items ++ users_text users) }
{
    text.push(b'{')?;
    for user in 0..64u64 {
        if (users >> user) % 2 == 1 {
            add(text, format_args!(" {user}"))?;
        }
    }
    text.extend_from_slice(b" }")
}

/// Adds each name whose bit stands, from the lowest bit up.
fn add_names(text: &mut Vec<u8>, names: &[&str], bits: u64) -> Result<(), AllocError>
    requires { length names.now ≤ 64 }
    ensures { OnOk result (text.new.items ≡ text.old.items ++ names_from (map (λ s. s.now) names.now) bits) }
{
    for (i, name) in names.iter().enumerate() {
        if (bits >> i) % 2 == 1 {
            add(text, format_args!(" {name}"))?;
        }
    }
    Ok(())
}

/// Adds the fields of a request that are shown.
fn add_shown(text: &mut Vec<u8>, shown: u64) -> Result<(), AllocError>
    ensures { OnOk result (text.new.items ≡ text.old.items ++ shown_text shown) }
{
    let names = ["side", "quantity", "limit", "minimum", "requestor"];
    text.push(b'{')?;
    add_names(text, &names, shown)?;
    text.extend_from_slice(b" }")
}

/// A hexadecimal digit.
fn digit(d: u8) -> u8
    requires { d < 16 }
    ensures { result ≡ digit_of d }
{
    if d < 10 { b'0' + d } else { b'a' + (d - 10) }
}

// By hand and not by `{:02x}`: each byte would be made a `String` first, and a page has thousands.
/// A byte by its two hexadecimal digits.
pub fn hex(byte: u8) -> [u8; 2]
    ensures { result ≡ hex_of byte }
{
    [digit(byte / 16), digit(byte % 16)]
}

/// Adds a byte of a name, as itself where it has a sign.
fn add_sign(text: &mut Vec<u8>, byte: u8) -> Result<(), AllocError>
    ensures { OnOk result (text.new.items ≡ text.old.items ++ sign_of byte) }
{
    match byte {
        b'"' | b'\\' | 0..=31 | 127..=255 => {
            text.extend_from_slice(b"\\x")?;
            text.extend_from_slice(&hex(byte))
        }
        _ => text.extend_from_slice(&[byte]),
    }
}

/// Adds a name in its quotes.
fn add_name(text: &mut Vec<u8>, name: &[u8]) -> Result<(), AllocError>
    ensures { OnOk result (text.new.items ≡ text.old.items ++ name_text name.now) }
{
    text.push(b'"')?;
    for byte in name {
        add_sign(text, *byte)?;
    }
    text.push(b'"')?;
    Ok(())
}

/// Adds a price: its letter, and the number where that is L.
fn add_price(text: &mut Vec<u8>, price: Price) -> Result<(), AllocError>
    ensures { OnOk result (text.new.items ≡ text.old.items ++ price_text price) }
{
    add(text, price.letter)?;
    match price.letter {
        'L' => add(text, price.number),
        _ => Ok(()),
    }
}

/// Adds what a field of a shape holds.
fn add_value(text: &mut Vec<u8>, shape: Shape, value: Value) -> Result<(), AllocError>
    ensures { OnOk result (text.new.items ≡ text.old.items ++ value_text shape value) }
{
    match value {
        Value::Number(n) => match shape {
            Shape::Users => add_users(text, n),
            Shape::Set => add_shown(text, n),
            _ => add(text, n),
        },
        Value::Letter(letter) => add(text, letter),
        Value::Quoted(price) => add_price(text, price),
        Value::Name(name) => add_name(text, &name),
        Value::Letters(letters) => text.extend_from_slice(&letters),
    }
}

/// Adds a field: its name, and what it holds.
fn add_field(text: &mut Vec<u8>, field: Field, fields: &Record) -> Result<(), AllocError>
    ensures { OnOk result (text.new.items ≡ text.old.items ++ field_text fields.now field) }
{
    add(text, format_args!(" {}=", label(field)))?;
    add_value(text, field.shape(), fields.value(field))
}

// By its letter, which a line shows too.
/// Adds all the fields that stand; an unknown kind has none.
fn add_fields(text: &mut Vec<u8>, kind: char, fields: &Record) -> Result<(), AllocError>
    ensures { OnOk result (text.new.items ≡ text.old.items ++ flat_map (field_text fields.now) (fields_of kind fields.now)) }
{
    if let Some(kind) = Kind::of(kind) {
        for field in kind.standing(fields.map) {
            add_field(text, field, fields)?;
        }
    }
    Ok(())
}

// A letter and no kind: it is ? where the kind is unknown.
/// What a line begins with: the count of a record, its place and its kind letter.
#[derive(Clone, Copy, Debug, PartialEq, Eq)]
pub struct Front {
    pub count: usize,
    pub at: usize,
    pub kind: char,
}

impl Display for Front {
    ghost output = { λ f. Some (head_text f.count f.at f.kind) };

    fn fmt<W: fmt::Write>(&self, f: &mut fmt::Formatter<W>) -> fmt::Result {
        write!(f, "{} {} {}", self.count, self.at, self.kind)
    }
}

/// Adds the line of a record that was read, with the fields that stand in it.
pub fn add_record(text: &mut Vec<u8>, front: Front, fields: &Record) -> Result<(), AllocError>
    ensures { OnOk result (text.new.items ≡ text.old.items ++ record_line front.count front.at front.kind fields.now) }
{
    add(text, front)?;
    add_fields(text, front.kind, fields)?;
    text.push(b'\n')?;
    Ok(())
}

/// Adds what a line says of a refusal.
pub fn add_cause(text: &mut Vec<u8>, refusal: Refusal) -> Result<(), AllocError>
    ensures { OnOk result (text.new.items ≡ text.old.items ++ cause_text refusal) }
{
    add(text, format_args!(" {refusal}\n"))
}

/// Adds the line of a record that was refused.
pub fn add_refusal(text: &mut Vec<u8>, front: Front, refusal: Refusal) -> Result<(), AllocError>
    ensures { OnOk result (text.new.items ≡ text.old.items ++ refusal_line front.count front.at front.kind refusal) }
{
    add(text, front)?;
    add_cause(text, refusal)
}
