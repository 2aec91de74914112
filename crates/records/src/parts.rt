// Records by their parts: the kinds, the fields of each, and the plain record that holds any of them.

// A letter and no enum: any can stand in a record, and a wrong one is refused by 5.
/// A price as it is given: a letter, and a number that counts only at L.
#[derive(Clone, Copy, Debug, Default, PartialEq, Eq)]
pub struct Price {
    pub letter: char,
    pub number: u32,
}

// Plain, as its bytes are: any letter can stand in a field, and reader and writer refuse the wrong ones by their number.
/// A record of any kind. The bit map says which fields stand; each other field has its stated value.
#[derive(Clone, Copy, Debug, Default, PartialEq, Eq)]
pub struct Record {
    /// Which fields stand, the lowest bit for the first field of the kind.
    pub map: u16,
    /// The user who makes the call, or who is entered.
    pub user: u8,
    /// The rank of a user, the lowest first.
    pub rank: u8,
    /// Whether the user's trades may be late: Y or N.
    pub late: char,
    /// The name of a symbol.
    pub name: [u8; 8],
    /// The tick of a symbol.
    pub tick: u32,
    /// The value from which a trade is large.
    pub large: u64,
    /// The number of the day.
    pub day: u32,
    /// The users to whom a request is sent, a bit for each.
    pub recipients: u64,
    /// B or S.
    pub side: char,
    /// The quantity entered, quoted or traded.
    pub quantity: u32,
    /// The limit of a request.
    pub limit: Price,
    /// The least quantity of a fill.
    pub minimum: u32,
    /// The time at which an entry ends.
    pub expiry: u32,
    /// The fields of a request that its recipients see, a bit for each.
    pub shown: u8,
    /// The number of a request.
    pub request: u16,
    /// The number of the quote that a new one replaces.
    pub old: u16,
    /// The price of a selling leg.
    pub selling: Price,
    /// The price of a buying leg.
    pub buying: Price,
    /// The number of a quote; in an acceptance, of the first that is named.
    pub quote: u16,
    /// The least total of an acceptance.
    pub floor: u32,
    /// What becomes of the rest: K to keep it open, C to cancel it.
    pub rest: char,
    /// The number of the second quote that is named, and so on to the eighth.
    pub second: u16,
    pub third: u16,
    pub fourth: u16,
    pub fifth: u16,
    pub sixth: u16,
    pub seventh: u16,
    pub eighth: u16,
    /// The time to which the clock moves.
    pub time: u32,
    /// The bid that is posted.
    pub bid: u32,
    /// The offer that is posted.
    pub offer: u32,
    /// The price that is asked for: B, O or M.
    pub letter: char,
    /// The leg that is asked for: B or S.
    pub leg: char,
    /// The open quantity of a request.
    pub open: u32,
    /// The user who entered a request.
    pub requestor: u8,
    /// The remaining quantity of a quote.
    pub remaining: u32,
    /// The price at which a quote sells now.
    pub sells: u32,
    /// The price at which a quote buys now.
    pub buys: u32,
    /// The number of a trade.
    pub trade: u16,
    /// The price of a trade or of an executable quote.
    pub price: u32,
    /// The letters LRGS of a late trade.
    pub flag: [u8; 4],
}

/// The fields of a record, by name.
#[derive(Clone, Copy, Debug, PartialEq, Eq)]
pub enum Field {
    User,
    Rank,
    Late,
    Name,
    Tick,
    Large,
    Day,
    Recipients,
    Side,
    Quantity,
    Limit,
    Minimum,
    Expiry,
    Shown,
    Request,
    Old,
    Selling,
    Buying,
    Quote,
    Floor,
    Rest,
    Second,
    Third,
    Fourth,
    Fifth,
    Sixth,
    Seventh,
    Eighth,
    Time,
    Bid,
    Offer,
    Letter,
    Leg,
    Open,
    Requestor,
    Remaining,
    Sells,
    Buys,
    Trade,
    Price,
    Flag,
}

/// How a field stands as bytes, and what is asked of it.
#[derive(Clone, Copy, Debug, PartialEq, Eq)]
pub enum Shape {
    /// A number of one byte.
    Byte,
    /// A number of two bytes, as all numbers lower byte first.
    Two,
    /// A number of four bytes.
    Four,
    /// A number of eight bytes.
    Eight,
    /// A set of users, a bit for each, in eight bytes.
    Users,
    /// A set of the five bits that may be shown, in one byte.
    Set,
    /// Y or N.
    YesNo,
    /// B or S.
    BuySell,
    /// K or C.
    KeepCancel,
    /// B, O or M.
    Reference,
    /// A letter L, B, O or M, and a number of four bytes that is zero unless the letter is L.
    Priced,
    /// Eight bytes of any kind.
    Text,
    /// The four letters LRGS.
    Mark,
}

/// What a field holds.
#[derive(Clone, Copy, Debug, PartialEq, Eq)]
pub enum Value {
    Number(u64),
    Letter(char),
    Quoted(Price),
    Name([u8; 8]),
    Letters([u8; 4]),
}

/// A field of a kind of record: one that must stand, or one that may lack.
#[derive(Clone, Copy, Debug, PartialEq, Eq)]
pub enum Slot {
    Must(Field),
    May(Field),
}

/// The kinds of record: fourteen calls, and the four lines that only answers hold.
#[derive(Clone, Copy, Debug, PartialEq, Eq)]
pub enum Kind {
    NewUser,
    NewSymbol,
    Opening,
    Entry,
    Quoting,
    Pull,
    Cancel,
    Acceptance,
    Clock,
    Posting,
    PriceQuestion,
    ViewQuestion,
    BookQuestion,
    Closing,
    RequestLine,
    QuoteLine,
    TradeLine,
    ExecutableLine,
}
