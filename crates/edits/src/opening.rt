// Tables that are set up, and the day that opens on them.
ghost use Rattle.std.specs.Prelude.{◌≡◌, ◌<◌, [], length};
ghost use Rattle.prices.specs.Rows.{bare};
ghost use Rattle.tables.specs.Tabled.{bare_day, setting_of};
ghost use Rattle.tables.specs.Used.{used};
ghost use Rattle.venue.specs.Model.{open_day};
ghost use Rattle.venue.specs.Setting.{SetupCall.add_symbol, SetupCall.add_user, nothing_set, opening_of, setup_apply};

use prices::rows::Ticks;
use tables::inner::{Tables, USERS};
use tables::table::Table;
use venue::rows::{NewSymbol, NewUser, Symbol, User};

/// The clock when a day opens.
const OPENING_TIME: u32 = 27_000_000;

/// Tables with nothing in them.
pub fn empty_tables() -> Tables
    ensures { setting_of result ≡ nothing_set }
{
    Tables {
        number: 0,
        clock: OPENING_TIME,
        users: [User::default(); USERS],
        symbols: Table::new(),
        requests: Table::new(),
        quotes: Table::new(),
        trades: Table::new(),
        quantities: [0; 640],
    }
}

/// Enters a user.
pub fn enter_user(t: &mut Tables, user: &NewUser)
    requires { user.now.user < 64 }
    ensures { setting_of t.new ≡ setup_apply (setting_of t.old) (add_user user.now) }
{
    t.users[usize::from(user.user)] = User {
        entered: true,
        rank: user.rank,
        late: user.late == 'Y',
    };
}

/// Enters a symbol.
pub fn enter_symbol(t: &mut Tables, symbol: &NewSymbol)
    requires { length (used t.old.symbols) < 64 }
    ensures { setting_of t.new ≡ setup_apply (setting_of t.old) (add_symbol symbol.now) }
{
    t.symbols.push(Symbol {
        name: symbol.name,
        ticks: Ticks { tick: symbol.tick },
        large: symbol.large,
    });
}

/// Opens the day with a number: nothing was entered on it yet.
pub fn open_tables(t: &mut Tables, day: u32)
    ensures { bare_day t.new ≡ open_day (opening_of (setting_of t.old) day [] bare) }
{
    t.number = day;
    t.clock = OPENING_TIME;
    t.requests.clear();
    t.quotes.clear();
    t.trades.clear();
}
