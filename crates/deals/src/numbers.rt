// Rows that are written at their number.
ghost use Rattle.std.specs.Prelude.{◌≡◌, ◌-◌};
ghost use Rattle.venue.specs.Days.{numbered as row_numbered};
ghost use Rattle.venue.specs.Trading.{renumbered};

use tables::look::numbered;

// By index: once a row that `get_mut` lends is given back, nothing is known of the others.
/// Puts a row at a number, counted from 1. At any other number there is nothing to replace.
pub fn renumber<R: Copy>(rows: &mut [R], n: u16, row: R)
    ensures { rows.new ≡ renumbered rows.old n row }
{
    if (1..=rows.len()).contains(&usize::from(n)) {
        rows[usize::from(n) - 1] = row;
    }
}

/// Takes a fill from the quantity with a number.
pub fn lower(quantities: &mut [u32], n: u16, fill: u32)
    ensures { quantities.new ≡ renumbered quantities.old n (row_numbered 0 quantities.old n - fill) }
{
    let left = numbered(quantities, n, 0).saturating_sub(fill);
    renumber(quantities, n, left);
}
