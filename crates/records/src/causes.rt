// Why a call or a record is refused.
ghost use Rattle.std.specs.Prelude.{◌≡◌, Some};
ghost use Rattle.records.specs.Causes.{number as number_of, layer as layer_of, refusal, refusal_text};

use std::fmt;

/// The causes of refusal.
#[derive(Clone, Copy, Debug, PartialEq, Eq)]
pub enum Cause {
    /// The kind letter is none of the eighteen.
    UnknownKind,
    /// The bytes end before the record does.
    CutShort,
    /// A bit stands that the kind has no field for.
    ForeignBit,
    /// A field lacks that must stand.
    FieldAbsent,
    /// A letter, a shown set or the unused number of a price is wrong.
    WrongLetter,
    /// The kind is out of its part of the day.
    OutOfPart,
    /// A value or a name is out of its range.
    OutOfRange,
    /// The user or the name was entered before.
    EnteredBefore,
    /// The user was never entered.
    UnknownUser,
    /// The symbol was never entered.
    UnknownSymbol,
    /// The recipients are none, or hold the requestor or one who was not entered.
    WrongRecipients,
    /// A price is no multiple of the tick.
    OffTick,
    /// A minimum is above its own quantity.
    MinimumAboveQuantity,
    /// The clock would go back, or an expiry is not after it.
    NotAfterClock,
    /// The request is not open, or not the caller's to own or quote on.
    RequestNotOpen,
    /// The quote is not the caller's live one, or is not executable there.
    QuoteNotLive,
    /// The day holds no more symbols, requests, quotes or trades.
    DayFull,
    /// A leg stands against the side that is shown.
    LegAgainstSide,
    /// The quantity is below the minimum that is shown.
    BelowShownMinimum,
    /// A quote is named twice.
    NamedTwice,
    /// The total stays below the floor.
    BelowFloor,
    /// The debt is of another day, or its trades are not unfiled here.
    DebtNotOwed,
    /// The day has unfiled trades.
    TradesUnfiled,
    /// The buffer is too short.
    BufferShort,
    /// The source has no such place.
    NoSuchPlace,
    /// Nothing was ever posted there.
    NeverPosted,
    /// The price is gone.
    PriceGone,
    /// The offer is below the bid.
    CrossedPair,
    /// The price is too old.
    TooOld,
    /// The price is none that can be traded at.
    OutOfPrice,
}

/// A refusal: its cause, and the place that the cause speaks of. That is the offset of the record's first byte for a
/// record, the symbol's place for a price, and 0 for the book.
#[derive(Clone, Copy, Debug, PartialEq, Eq)]
pub struct Refusal {
    pub cause: Cause,
    pub place: usize,
}

/// The refusal of a call by value, whose place is 0.
impl From<Cause> for Refusal {
    ghost from_gives = { λ cause r. r ≡ refusal cause 0 };

    fn from(cause: Cause) -> Refusal {
        cause.at(0)
    }
}

/// `no`, the number, the layer and the place.
impl fmt::Display for Refusal {
    ghost output = { λ r. Some (refusal_text r) };

    fn fmt<W: fmt::Write>(&self, f: &mut fmt::Formatter<W>) -> fmt::Result {
        let number = self.cause.number();
        let layer = self.cause.layer();
        write!(f, "no {number} {layer} {}", self.place)
    }
}

impl Cause {
    /// The refusal for this cause, at a place.
    pub fn at(self, place: usize) -> Refusal
        ensures { result ≡ refusal self place }
    {
        Refusal { cause: self, place }
    }

    // By a match: two causes share 13, so the number is no discriminant.
    /// The number by which the cause is reported.
    pub fn number(self) -> u8
        ensures { result ≡ number_of self }
    {
        match self {
            Cause::UnknownKind => 1,
            Cause::CutShort => 2,
            Cause::ForeignBit => 3,
            Cause::FieldAbsent => 4,
            Cause::WrongLetter => 5,
            Cause::OutOfPart => 6,
            Cause::OutOfRange => 10,
            Cause::EnteredBefore => 11,
            Cause::UnknownUser => 12,
            Cause::UnknownSymbol => 13,
            Cause::WrongRecipients => 14,
            Cause::OffTick => 15,
            Cause::MinimumAboveQuantity => 16,
            Cause::NotAfterClock => 17,
            Cause::RequestNotOpen => 18,
            Cause::QuoteNotLive => 19,
            Cause::DayFull => 20,
            Cause::LegAgainstSide => 21,
            Cause::BelowShownMinimum => 22,
            Cause::NamedTwice => 23,
            Cause::BelowFloor => 24,
            Cause::DebtNotOwed => 25,
            Cause::TradesUnfiled => 26,
            Cause::BufferShort => 27,
            Cause::NoSuchPlace => 13,
            Cause::NeverPosted => 30,
            Cause::PriceGone => 31,
            Cause::CrossedPair => 32,
            Cause::TooOld => 33,
            Cause::OutOfPrice => 34,
        }
    }

    // A letter, as it is reported: nothing hangs on it but the place in a refusal of the writer.
    /// The letter of the layer that refuses: R for records, B for the book, P for prices.
    pub fn layer(self) -> char
        ensures { result ≡ layer_of self }
    {
        match self {
            Cause::UnknownKind
            | Cause::CutShort
            | Cause::ForeignBit
            | Cause::FieldAbsent
            | Cause::WrongLetter
            | Cause::OutOfPart => 'R',
            Cause::NoSuchPlace
            | Cause::NeverPosted
            | Cause::PriceGone
            | Cause::CrossedPair
            | Cause::TooOld
            | Cause::OutOfPrice => 'P',
            _ => 'B',
        }
    }
}
