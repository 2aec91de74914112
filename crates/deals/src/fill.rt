// The fills, all kept or all put back.
ghost use Rattle.std.specs.Prelude.{◌≡◌, ◌+◌, ◌<◌, ◌≤◌, length};
ghost use Rattle.records.specs.Causes.{unless};
ghost use Rattle.venue.specs.Trading.{fills, renumbered, turn as turn_of};
ghost use Rattle.deals.specs.Filling.{Leaves, fill_causes, filled_on, live_day, so_far, terms_day, verdict};
ghost use Rattle.tables.specs.Used.{used};

use super::numbers::{lower, renumber};
use super::terms::Terms;
use records::causes::Cause;
use tables::inner::REQUESTS;
use tables::look::numbered;
use tables::table::Table;
use venue::rows::{Candidate, Trade};

/// Holds the quantities while an acceptance fills: where it ends unkept, each quantity is put back.
struct Guard<'a> {
    live: &'a mut [u32; 640],
    old: [u32; 640],
}

impl Drop for Guard<'_> {
    fn drop(self)
        ensures { self.exit.0.now ≡ self.entry.old }
    {
        let Guard { live, old } = self;
        *live = old;
    }
}

impl Guard<'_> {
    /// Keeps the fills: taken apart, the guard puts nothing back.
    fn keep(self)
        ensures { self.exit.0.now ≡ self.entry.live.now }
    {
        let Guard { live: _, old: _ } = self;
    }
}

impl Terms<'_> {
    /// The turn of one quote: its fill and the trade of it, or nothing where the fill is below a minimum.
    fn turn(&self, left: &mut u32, remains: &mut [u32], row: Candidate, made: &mut Table<Trade, 8>)
        requires { length (used made.old) < 8 }
        ensures filled { so_far left.new remains.new (used made.new) ≡ turn_of (terms_day self.now) self.now.call.now.request (so_far left.old remains.old (used made.old)) row }
        ensures less { left.new ≤ left.old }
        ensures len { length (used made.new) ≤ length (used made.old) + 1 }
    {
        let fill = (*left).min(numbered(remains, row.quote, 0));
        if self.is_met(row.quote, fill) {
            *left -= fill;
            lower(remains, row.quote, fill);
            made.push(self.trade_of(row, fill));
        }
    }

    /// Fills the quotes of a line in turn.
    fn turns(&self, live: &mut [u32; 640], line: &Table<Candidate, 8>) -> Table<Trade, 8>
        ensures filled { filled_on (live_day self.now live.new) self.now.call.now.request (used result) ≡ fills (live_day self.now live.old) self.now.call.now.request (used line.now) }
        ensures opens { (live_day self.now live.new).opens ≡ renumbered (live_day self.now live.old).opens self.now.call.now.request (fills (live_day self.now live.old) self.now.call.now.request (used line.now)).open_left }
    {
        let (opens, remains) = live.split_at_mut(REQUESTS);
        let opens = &mut opens[..self.requests.len()];
        let remains = &mut remains[..self.quotes.len()];
        let mut left = numbered(opens, self.call.request, 0);
        let mut made = Table::new();
        // A `for`: of what a closure changes, nothing is known behind the call that takes it.
        for row in line.as_slice() {
            self.turn(&mut left, remains, *row, &mut made);
        }
        renumber(opens, self.call.request, left);
        made
    }

    /// Fills the quotes of a line in turn. Where that is refused, every quantity is what it was.
    pub fn fill(
        &self,
        quantities: &mut [u32; 640],
        line: &Table<Candidate, 8>,
    ) -> Result<Table<Trade, 8>, Cause>
        ensures verdict { verdict result ≡ unless (fill_causes (terms_day self.now) self.now.call.now (fills (live_day self.now quantities.old) self.now.call.now.request (used line.now)).trades) tt }
        ensures left { Leaves self.now (fills (live_day self.now quantities.old) self.now.call.now.request (used line.now)) quantities.old quantities.new result }
        ensures size { length quantities.new ≡ 640 }
    {
        let old = *quantities;
        let guard = Guard {
            live: quantities,
            old,
        };
        let made = self.turns(guard.live, line);
        self.judge(&made)?;
        guard.keep();
        Ok(made)
    }
}
