// The rows that a page is made of, and its lines.
ghost use Rattle.std.specs.Prelude.{◌≡◌, ◌≤◌, false};
ghost use Rattle.records.specs.Layout.{kind_of};
ghost use Rattle.records.specs.Reading.{no_kind};
ghost use Rattle.tables.specs.Tabled.{bare_day};
ghost use Rattle.pages.specs.Rows.{Tellable, places};

use records::parts::Record;
use tables::inner::Market;
use venue::rows::Candidate;

/// What a line of a page tells.
#[derive(Clone, Copy, Debug, PartialEq, Eq)]
pub enum Row {
    /// A request with what it shows, by its number.
    Shown(u16),
    /// A request with everything, by its number.
    Whole(u16),
    /// A quote, by its number.
    Quote(u16),
    /// A trade, by its number.
    Trade(u16),
    /// An executable quote.
    Executable(Candidate),
}

// By its letter, as a record is laid.
/// A line of a page: the letter of its kind, and its fields.
#[derive(Drop)]
pub struct Line {
    pub kind: char,
    pub fields: Record,
    ghost known: { no_kind (kind_of kind) ≡ false },
}

// Its order is not derived: names are compared in one place, `tables::names`.
/// A request among those that a user sees: the name of its symbol, and its number.
#[derive(Clone, Copy, Debug, Default, PartialEq, Eq)]
pub struct Listed {
    pub name: [u8; 8],
    pub number: u16,
}

// It is copied and no more: nobody compares or shows it.
/// What a page lists in an order of its own.
#[derive(Clone, Copy)]
pub enum Content<'a> {
    /// The requests that a user sees. The user's own quotes and trades stand behind them by number.
    View(&'a [Listed]),
    /// A request, by its number, and its executable quotes.
    Book(u16, &'a [Candidate]),
}

// The rows are found by number as they are told, and not listed first: there can be 1,152 of them, and most pages have few.
/// A page for one user: what it lists, and the market that it tells of.
#[derive(Drop)]
pub struct Page<'a, S> {
    pub market: &'a Market<S>,
    pub user: u8,
    pub content: Content<'a>,
    ghost tellable: { Tellable market.now.tables content },
    ghost few: { places (bare_day market.now.tables) content ≤ 1152 },
}
