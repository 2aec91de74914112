// The rows of a day, and its calls as they are given.
use prices::rows::Ticks;
use records::parts::Price;

// A flag and not an `Option`: who was not entered is a row that answers each question about users. `late` is a plain yes or no.
/// A user, at the place of its number.
#[derive(Clone, Copy, Debug, Default, PartialEq, Eq)]
pub struct User {
    pub entered: bool,
    pub rank: u8,
    pub late: bool,
}

/// A symbol, at its place.
#[derive(Clone, Copy, Debug, Default, PartialEq, Eq)]
pub struct Symbol {
    pub name: [u8; 8],
    pub ticks: Ticks,
    pub large: u64,
}

/// Which way a requestor trades.
#[derive(Clone, Copy, Debug, Default, PartialEq, Eq)]
pub enum Side {
    #[default]
    Buy,
    Sell,
}

/// Whether a request is open, or how it ended. The first is the life of a request that was never entered.
#[derive(Clone, Copy, Debug, Default, PartialEq, Eq)]
pub enum Life {
    #[default]
    Absent,
    Open,
    Cancelled,
    Expired,
    Accepted,
    Closed,
}

/// A request as it was entered, with what became of it.
#[derive(Clone, Copy, Debug, Default, PartialEq, Eq)]
pub struct Request {
    pub requestor: u8,
    /// The place of its symbol.
    pub place: usize,
    pub recipients: u64,
    pub side: Side,
    pub quantity: u32,
    pub limit: Price,
    pub minimum: u32,
    pub expiry: u32,
    pub shown: u8,
    pub life: Life,
}

// What was entered stays when a quote ends, so the flag is its state and no `Option` of the rest; the same of a trade.
/// A quote as it was entered, and whether it lives.
#[derive(Clone, Copy, Debug, Default, PartialEq, Eq)]
pub struct Quote {
    pub user: u8,
    /// The number of its request.
    pub request: u16,
    pub quantity: u32,
    pub selling: Option<Price>,
    pub buying: Option<Price>,
    pub minimum: u32,
    pub expiry: u32,
    pub live: bool,
}

/// A trade, with the numbers of its request and its quote.
#[derive(Clone, Copy, Debug, Default, PartialEq, Eq)]
pub struct Trade {
    pub request: u16,
    pub quote: u16,
    pub buyer: u8,
    pub seller: u8,
    pub quantity: u32,
    pub price: u32,
    pub filed: bool,
}

/// An executable quote, with what places it in the order of an acceptance.
#[derive(Clone, Copy, Debug, Default, PartialEq, Eq)]
pub struct Candidate {
    pub side: Side,
    pub price: u32,
    pub rank: u8,
    pub remaining: u32,
    pub quote: u16,
}

/// The trades of one acceptance, which are to be reported: the day, and the first and the last of them.
#[derive(Clone, Copy, Debug, PartialEq, Eq)]
pub struct Report {
    pub day: u32,
    pub first: u16,
    pub last: u16,
}

// The letters of calls are letters: any may be given, and the wrong ones are refused by their number.
/// A user who is to be entered: Y or N says whether the user's trades may be late.
#[derive(Clone, Copy, Debug, PartialEq, Eq)]
pub struct NewUser {
    pub user: u8,
    pub rank: u8,
    pub late: char,
}

/// A symbol that is to be entered.
#[derive(Clone, Copy, Debug, PartialEq, Eq)]
pub struct NewSymbol {
    pub name: [u8; 8],
    pub tick: u32,
    pub large: u64,
}

/// An entry. What may lack in its record may lack here.
#[derive(Clone, Copy, Debug, PartialEq, Eq)]
pub struct Entry {
    pub user: u8,
    pub name: [u8; 8],
    pub recipients: u64,
    pub side: char,
    pub quantity: u32,
    pub limit: Price,
    pub minimum: Option<u32>,
    pub expiry: Option<u32>,
    pub shown: Option<u8>,
}

/// A new quote, perhaps in the place of an old one.
#[derive(Clone, Copy, Debug, PartialEq, Eq)]
pub struct Offering {
    pub user: u8,
    pub request: u16,
    pub old: Option<u16>,
    pub quantity: u32,
    pub selling: Option<Price>,
    pub buying: Option<Price>,
    pub minimum: Option<u32>,
    pub expiry: Option<u32>,
}

/// An acceptance of one to eight quotes.
#[derive(Clone, Copy, Debug, PartialEq, Eq)]
pub struct Acceptance {
    pub user: u8,
    pub request: u16,
    pub floor: Option<u32>,
    pub rest: Option<char>,
    pub quotes: [Option<u16>; 8],
}

/// A posting: both prices, or neither for gone.
#[derive(Clone, Copy, Debug, PartialEq, Eq)]
pub struct Posting {
    pub name: [u8; 8],
    pub bid: Option<u32>,
    pub offer: Option<u32>,
}

/// A question for a price.
#[derive(Clone, Copy, Debug, PartialEq, Eq)]
pub struct PriceQuestion {
    pub name: [u8; 8],
    pub letter: char,
    pub leg: char,
}
