// Which users and symbols are taken while a day is set up.
ghost use Rattle.std.specs.Prelude.{◌≡◌, not, ◌&&◌, ◌||◌, length, nat_le};
ghost use Rattle.tables.specs.Tabled.{setting_of};
ghost use Rattle.venue.specs.Days.{is_name as is_a_name};
ghost use Rattle.venue.specs.Setting.{SetupCall.add_symbol, SetupCall.add_user, setup_judge};

use records::causes::Cause;
use tables::inner::Tables;
use tables::names::is_name;
use tables::values::is_user;
use venue::rows::{NewSymbol, NewUser};

/// The highest tick, and the highest value from which a trade is large.
const MOST_TICK: u32 = 10_000_000;

const MOST_LARGE: u64 = 100_000_000_000_000_000;

/// Whether a user can be entered.
pub fn judge_user(t: &Tables, user: &NewUser) -> Result<(), Cause>
    ensures { result ≡ setup_judge (setting_of t.now) (add_user user.now) }
{
    if !matches!(user.late, 'Y' | 'N') {
        return Err(Cause::WrongLetter);
    }
    if !is_user(user.user) {
        return Err(Cause::OutOfRange);
    }
    if t.user(user.user).entered {
        return Err(Cause::EnteredBefore);
    }
    Ok(())
}

/// Whether the name, the tick or the large value of a symbol is out of range.
fn is_symbol_beyond(symbol: &NewSymbol) -> bool
    ensures { result ≡ (not (is_a_name symbol.now.name) || (not (nat_le 1 symbol.now.tick && nat_le symbol.now.tick 10000000) || not (nat_le 1 symbol.now.large && nat_le symbol.now.large 100000000000000000))) }
{
    !is_name(&symbol.name)
        || !(1..=MOST_TICK).contains(&symbol.tick)
        || !(1..=MOST_LARGE).contains(&symbol.large)
}

/// Whether there is no room for another symbol.
fn is_full_of_symbols(t: &Tables) -> bool
    ensures { result ≡ nat_le 64 (length (setting_of t.now).symbols) }
{
    t.symbols.is_full()
}

/// Whether a symbol can be entered.
pub fn judge_symbol(t: &Tables, symbol: &NewSymbol) -> Result<(), Cause>
    ensures { result ≡ setup_judge (setting_of t.now) (add_symbol symbol.now) }
{
    if is_symbol_beyond(symbol) {
        return Err(Cause::OutOfRange);
    }
    if t.place_of(&symbol.name).is_some() {
        return Err(Cause::EnteredBefore);
    }
    if is_full_of_symbols(t) {
        return Err(Cause::DayFull);
    }
    Ok(())
}
