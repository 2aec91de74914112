// The fields of each kind of record, in bit order.
ghost use Rattle.std.specs.Prelude.{◌≡◌, ◌≤◌, length};
ghost use Rattle.std.specs.Option.{ok_or};
ghost use Rattle.records.specs.declared.causes.Cause.TheVariants.{UnknownKind};
ghost use Rattle.records.specs.Layout.{field_of, kind_of, layout, may_lack as is_optional, shape as shape_of};

use super::causes::Cause;
use super::parts::Slot::{May, Must};
use super::parts::{Field, Kind, Shape, Slot};

static NEW_USER: [Slot; 3] = [Must(Field::User), Must(Field::Rank), Must(Field::Late)];

static NEW_SYMBOL: [Slot; 3] = [Must(Field::Name), Must(Field::Tick), Must(Field::Large)];

static OPENING: [Slot; 1] = [Must(Field::Day)];

static ENTRY: [Slot; 9] = [
    Must(Field::User),
    Must(Field::Name),
    Must(Field::Recipients),
    Must(Field::Side),
    Must(Field::Quantity),
    Must(Field::Limit),
    May(Field::Minimum),
    May(Field::Expiry),
    May(Field::Shown),
];

static QUOTING: [Slot; 8] = [
    Must(Field::User),
    Must(Field::Request),
    May(Field::Old),
    Must(Field::Quantity),
    May(Field::Selling),
    May(Field::Buying),
    May(Field::Minimum),
    May(Field::Expiry),
];

static PULL: [Slot; 2] = [Must(Field::User), Must(Field::Quote)];

static CANCEL: [Slot; 2] = [Must(Field::User), Must(Field::Request)];

static ACCEPTANCE: [Slot; 12] = [
    Must(Field::User),
    Must(Field::Request),
    May(Field::Floor),
    May(Field::Rest),
    Must(Field::Quote),
    May(Field::Second),
    May(Field::Third),
    May(Field::Fourth),
    May(Field::Fifth),
    May(Field::Sixth),
    May(Field::Seventh),
    May(Field::Eighth),
];

static CLOCK: [Slot; 1] = [Must(Field::Time)];

static POSTING: [Slot; 3] = [Must(Field::Name), May(Field::Bid), May(Field::Offer)];

static PRICE_QUESTION: [Slot; 3] = [Must(Field::Name), Must(Field::Letter), Must(Field::Leg)];

static VIEW_QUESTION: [Slot; 1] = [Must(Field::User)];

static BOOK_QUESTION: [Slot; 2] = [Must(Field::User), Must(Field::Request)];

static CLOSING: [Slot; 0] = [];

static REQUEST_LINE: [Slot; 8] = [
    Must(Field::Request),
    Must(Field::Name),
    Must(Field::Expiry),
    May(Field::Side),
    May(Field::Open),
    May(Field::Limit),
    May(Field::Minimum),
    May(Field::Requestor),
];

static QUOTE_LINE: [Slot; 7] = [
    Must(Field::Quote),
    Must(Field::Request),
    Must(Field::Remaining),
    May(Field::Sells),
    May(Field::Buys),
    Must(Field::Minimum),
    Must(Field::Expiry),
];

static TRADE_LINE: [Slot; 6] = [
    Must(Field::Trade),
    Must(Field::Name),
    Must(Field::Side),
    Must(Field::Quantity),
    Must(Field::Price),
    May(Field::Flag),
];

static EXECUTABLE_LINE: [Slot; 3] = [
    Must(Field::Quote),
    Must(Field::Remaining),
    Must(Field::Price),
];

impl Kind {
    // The letters are cases here alone; `try_from` gives the refusal.
    /// The kind of a letter, if there is one.
    pub fn of(letter: char) -> Option<Kind>
        ensures { result ≡ kind_of letter }
    {
        match letter {
            'U' => Some(Kind::NewUser),
            'S' => Some(Kind::NewSymbol),
            'O' => Some(Kind::Opening),
            'R' => Some(Kind::Entry),
            'Q' => Some(Kind::Quoting),
            'P' => Some(Kind::Pull),
            'X' => Some(Kind::Cancel),
            'A' => Some(Kind::Acceptance),
            'T' => Some(Kind::Clock),
            'M' => Some(Kind::Posting),
            'K' => Some(Kind::PriceQuestion),
            'V' => Some(Kind::ViewQuestion),
            'B' => Some(Kind::BookQuestion),
            'C' => Some(Kind::Closing),
            'r' => Some(Kind::RequestLine),
            'q' => Some(Kind::QuoteLine),
            't' => Some(Kind::TradeLine),
            'e' => Some(Kind::ExecutableLine),
            _ => None,
        }
    }

    /// The fields of the kind, from the lowest bit up.
    pub fn slots(self) -> &'static [Slot]
        ensures value { result.now ≡ layout self }
        ensures few { length result.now ≤ 16 }
    {
        match self {
            Kind::NewUser => &NEW_USER,
            Kind::NewSymbol => &NEW_SYMBOL,
            Kind::Opening => &OPENING,
            Kind::Entry => &ENTRY,
            Kind::Quoting => &QUOTING,
            Kind::Pull => &PULL,
            Kind::Cancel => &CANCEL,
            Kind::Acceptance => &ACCEPTANCE,
            Kind::Clock => &CLOCK,
            Kind::Posting => &POSTING,
            Kind::PriceQuestion => &PRICE_QUESTION,
            Kind::ViewQuestion => &VIEW_QUESTION,
            Kind::BookQuestion => &BOOK_QUESTION,
            Kind::Closing => &CLOSING,
            Kind::RequestLine => &REQUEST_LINE,
            Kind::QuoteLine => &QUOTE_LINE,
            Kind::TradeLine => &TRADE_LINE,
            Kind::ExecutableLine => &EXECUTABLE_LINE,
        }
    }
}

/// The kind of a letter; a letter of no kind is refused.
impl TryFrom<char> for Kind {
    type Error = Cause;

    ghost try_from_gives = { λ letter r. r ≡ ok_or (kind_of letter) UnknownKind };

    fn try_from(letter: char) -> Result<Kind, Cause> {
        Kind::of(letter).ok_or(Cause::UnknownKind)
    }
}

impl Field {
    /// How the field stands as bytes.
    pub fn shape(self) -> Shape
        ensures { result ≡ shape_of self }
    {
        match self {
            Field::User | Field::Rank | Field::Requestor => Shape::Byte,
            Field::Request
            | Field::Old
            | Field::Quote
            | Field::Second
            | Field::Third
            | Field::Fourth
            | Field::Fifth
            | Field::Sixth
            | Field::Seventh
            | Field::Eighth
            | Field::Trade => Shape::Two,
            Field::Tick
            | Field::Day
            | Field::Quantity
            | Field::Minimum
            | Field::Expiry
            | Field::Floor
            | Field::Time
            | Field::Bid
            | Field::Offer
            | Field::Open
            | Field::Remaining
            | Field::Sells
            | Field::Buys
            | Field::Price => Shape::Four,
            Field::Large => Shape::Eight,
            Field::Recipients => Shape::Users,
            Field::Shown => Shape::Set,
            Field::Late => Shape::YesNo,
            Field::Side | Field::Leg => Shape::BuySell,
            Field::Rest => Shape::KeepCancel,
            Field::Letter => Shape::Reference,
            Field::Limit | Field::Selling | Field::Buying => Shape::Priced,
            Field::Name => Shape::Text,
            Field::Flag => Shape::Mark,
        }
    }
}

impl Slot {
    /// The field that has its place here.
    pub fn field(self) -> Field
        ensures { result ≡ field_of self }
    {
        match self {
            Must(field) | May(field) => field,
        }
    }

    /// Whether the field may lack.
    pub(crate) fn may_lack(self) -> bool
        ensures { result ≡ is_optional self }
    {
        matches!(self, May(_))
    }
}
