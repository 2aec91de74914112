// The tables of a day: users at their numbers, and all other rows in tables of fixed room, in the order of acceptance.
ghost use Rattle.std.specs.Prelude.{◌≡◌, length};

use super::table::Table;
use venue::rows::{Quote, Request, Symbol, Trade, User};

/// How many users, symbols, requests, quotes and trades a day has room for.
pub const USERS: usize = 64;

pub const SYMBOLS: usize = 64;

pub const REQUESTS: usize = 128;

pub const QUOTES: usize = 512;

pub const TRADES: usize = 512;

/// The tables. Users stand at their numbers; symbols, requests, quotes and trades in the order of acceptance. The
/// quantities are those that are open of the requests, and from place 128 on those that remain of the quotes.
#[derive(Clone, Copy)]
pub struct Tables {
    pub number: u32,
    pub clock: u32,
    // A plain array: every user has a place, so there is no length.
    pub users: [User; USERS],
    pub symbols: Table<Symbol, SYMBOLS>,
    pub requests: Table<Request, REQUESTS>,
    pub quotes: Table<Quote, QUOTES>,
    pub trades: Table<Trade, TRADES>,
    // One plain array beside the tables: an acceptance that fails puts all of it back at once.
    pub quantities: [u32; 640],
    ghost every_user: { length users ≡ 64 },
    ghost every_quantity: { length quantities ≡ 640 },
}

/// The tables, and the source that their prices are read from.
#[derive(Drop)]
pub struct Market<S> {
    pub tables: Tables,
    pub source: S,
}
