// Which debts are taken back, and whether a day owes reports.
ghost use Rattle.std.specs.Prelude.{◌≡◌, ◌+◌, ◌-◌, ◌||◌, length, ◌==◌, nat_lt};
ghost use Rattle.tables.specs.Tabled.{bare_day};
ghost use Rattle.venue.specs.Calls.{Call.close, Call.file, not_owed, unfiled};
ghost use Rattle.venue.specs.Days.{no_trade, numbered};
ghost use Rattle.venue.specs.Model.{judge};

use records::causes::Cause;
use tables::inner::Tables;
use venue::rows::{Report, Trade};

/// Whether the trade with a number is not there or is filed.
fn is_not_owed(t: &Tables, n: u16) -> bool
    ensures { result ≡ (n == 0 || (nat_lt (length (bare_day t.now).trades) n || (numbered no_trade (bare_day t.now).trades n).filed)) }
{
    !(1..=t.trades.len()).contains(&usize::from(n)) || t.trade(n).filed
}

/// Whether one of the trades from the first to the last is not there or is filed.
fn are_not_owed(t: &Tables, first: u16, last: u16) -> bool
    ensures { result ≡ not_owed (bare_day t.now).trades first (last + 1 - first) }
{
    // A `for`: the library does not say what `any` gives over a range with its last number.
    for n in first..=last {
        if is_not_owed(t, n) {
            return true;
        }
    }
    false
}

/// Whether a debt is taken back.
pub fn judge_filing(t: &Tables, report: &Report) -> Result<(), Cause>
    ensures { result ≡ judge (bare_day t.now) (file report.now) }
{
    if report.day != t.number || are_not_owed(t, report.first, report.last) {
        return Err(Cause::DebtNotOwed);
    }
    Ok(())
}

/// Whether one of the trades is unfiled.
fn has_unfiled(trades: &[Trade]) -> bool
    ensures { result ≡ unfiled trades.now }
{
    trades.iter().any(|trade| !trade.filed)
}

/// Whether the day can be closed.
pub fn judge_close(t: &Tables) -> Result<(), Cause>
    ensures { result ≡ judge (bare_day t.now) close }
{
    if has_unfiled(t.trades.as_slice()) {
        return Err(Cause::TradesUnfiled);
    }
    Ok(())
}
