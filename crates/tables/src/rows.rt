// One row of a table: how it is lent by its number, and how it ends.
ghost use Rattle.std.specs.Prelude.{◌≡◌, IfNone, IfSome};
ghost use Rattle.std.specs.Borrow.{sem};
ghost use Rattle.tables.specs.Lends.{lends_numbered, lends_row_numbered};
ghost use Rattle.tables.specs.Used.{used};
ghost use Rattle.venue.specs.Days.{no_quote, no_request, no_trade, numbered as row_numbered};
ghost use Rattle.venue.specs.Model.{ended as ended_quote, ended_as, filed_trade, without_quote};
ghost use Rattle.venue.specs.Trading.{renumbered};

use super::facts::is_open;
use super::table::Table;
use venue::rows::{Life, Quote, Request, Trade};

// By index too, and not by `row_numbered_mut`: what is written through a slice of an array is not followed back to the table.
/// The row of a table with a number, counted from 1, for writing, if there is one.
pub fn numbered_mut<R, const CAP: usize>(rows: &mut Table<R, CAP>, n: u16) -> Option<&mut R>
    ensures* writes_back { sem 𝓛 (lends_numbered R.row CAP.row rows.entry n result) }
    ensures row { IfSome result (λ row. (none : R) → row.now ≡ row_numbered none (used rows.old) n) }
    ensures absent { IfNone result ((row : R) → renumbered (used rows.old) n row ≡ used rows.old) }
{
    let place = usize::from(n).checked_sub(1)?;
    if place < rows.len {
        Some(&mut rows.rows[place])
    } else {
        None
    }
}

// By index: of a row that a slice's `get_mut` lends, nothing is known once it is given back.
/// The row of a slice with a number, counted from 1, for writing, if there is one.
pub fn row_numbered_mut<R>(rows: &mut [R], n: u16) -> Option<&mut R>
    ensures* writes_back { sem 𝓛 (lends_row_numbered R.row rows.entry n result) }
    ensures row { IfSome result (λ row. (none : R) → row.now ≡ row_numbered none rows.old n) }
    ensures absent { IfNone result ((row : R) → renumbered rows.old n row ≡ rows.old) }
{
    let i = usize::from(n).checked_sub(1)?;
    if i < rows.len() {
        Some(&mut rows[i])
    } else {
        None
    }
}

/// Ends an open request.
pub fn end_request(row: &mut Request, life: Life)
    ensures { row.new ≡ ended_as life row.old }
{
    if is_open(row.life) {
        row.life = life;
    }
}

/// Ends a quote.
pub fn end_quote(row: &mut Quote)
    ensures { row.new ≡ ended_quote row.old }
{
    row.live = false;
}

/// Ends the request with a number, if there is one and it is open.
pub fn end_request_numbered(rows: &mut [Request], n: u16, life: Life)
    ensures { rows.new ≡ renumbered rows.old n (ended_as life (row_numbered no_request rows.old n)) }
{
    if let Some(row) = row_numbered_mut(rows, n) {
        end_request(row, life);
    }
}

/// Ends the quote with a number, if there is one.
pub fn end_quote_numbered(rows: &mut [Quote], n: u16)
    ensures { rows.new ≡ without_quote n rows.old }
{
    if let Some(row) = row_numbered_mut(rows, n) {
        end_quote(row);
    }
}

/// Marks the trade with a number as filed, if there is one.
pub fn file_trade_numbered(rows: &mut [Trade], n: u16)
    ensures { rows.new ≡ renumbered rows.old n (filed_trade (row_numbered no_trade rows.old n)) }
{
    if let Some(row) = row_numbered_mut(rows, n) {
        row.filed = true;
    }
}

#[cfg(test)]
mod tests {
    use super::*;

    #[test]
    fn writes_the_row_with_a_number(rt: HostRuntime) {
        let mut rows: Table<u8, 3> = Table::new();
        rows.push(10);
        rows.push(20);
        if let Some(row) = numbered_mut(&mut rows, 2) {
            *row = 21;
        }
        for (place, want) in [10, 21].iter().enumerate() {
            assert_eq!(rt; rows.as_slice()[place], *want);
        }
        assert!(rt; numbered_mut(&mut rows, 0).is_none());
        assert!(rt; numbered_mut(&mut rows, 3).is_none());
    }
}
