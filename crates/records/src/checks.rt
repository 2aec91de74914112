// What is asked of the fields of a record: how wide they are, and what they may hold.
ghost use Rattle.std.specs.Prelude.{◌≡◌, ◌≤◌};
ghost use Rattle.records.specs.Bytes.{width as width_of, one_of, letters, lrgs, fits as is_fit};

use super::parts::{Price, Shape, Value};

impl Shape {
    /// How many bytes a field of the shape takes.
    pub fn width(self) -> usize
        ensures value { result ≡ width_of self }
        ensures bound { result ≤ 8 }
    {
        match self {
            Shape::Two => 2,
            Shape::Four | Shape::Mark => 4,
            Shape::Priced => 5,
            Shape::Eight | Shape::Users | Shape::Text => 8,
            _ => 1,
        }
    }
}

// The letters are cases, shape by shape, as in the definition.
fn letter_fits(shape: Shape, letter: char) -> bool
    ensures { result ≡ one_of (letters shape) letter }
{
    match shape {
        Shape::YesNo => matches!(letter, 'Y' | 'N'),
        Shape::BuySell => matches!(letter, 'B' | 'S'),
        Shape::KeepCancel => matches!(letter, 'K' | 'C'),
        Shape::Reference => matches!(letter, 'B' | 'O' | 'M'),
        Shape::Priced => matches!(letter, 'L' | 'B' | 'O' | 'M'),
        _ => false,
    }
}

/// Whether a price has one of its letters, and a number only at L.
pub fn price_fits(price: Price) -> bool
    ensures { result ≡ is_fit (Shape.Priced) (Value.Quoted price) }
{
    // A match and no test: the cases say which letter has a number of its own.
    match price.letter {
        'L' => true,
        'B' | 'O' | 'M' => price.number == 0,
        _ => false,
    }
}

fn mark_fits(mark: [u8; 4]) -> bool
    ensures { result ≡ lrgs mark }
{
    mark == *b"LRGS"
}

/// Whether a field may hold the value.
pub(crate) fn fits(shape: Shape, value: Value) -> bool
    ensures { result ≡ is_fit shape value }
{
    match value {
        Value::Number(n) => shape != Shape::Set || n <= 31,
        Value::Letter(letter) => letter_fits(shape, letter),
        Value::Quoted(price) => price_fits(price),
        Value::Name(_) => true,
        Value::Letters(mark) => mark_fits(mark),
    }
}
