// Whether the two tables may be taken: their lengths (01, number 14), then the range of each cell (number 15); and the
// cell at a place.
ghost use Rattle.std.specs.Prelude.{◌≡◌, true, get_or, map};
ghost use Rattle.cells.specs.Tables.{tables_fit, every, cells_in_range};

use crate::reading::{Reading, Unit};

// The range of each cell, under the table's name too.
pub use crate::reading::{LEAST_TEMPERATURE, MOST_TEMPERATURE, MOST_VOLTAGE};

// The most cells that a table may hold.
pub const MOST: usize = 255;

// The two tables that a tick lends, of which 14 was not said.
#[derive(Clone, Copy)]
pub struct Tables<'a> {
    pub volts: &'a [u16],
    pub heat: &'a [i16],
    pub ghost fit: { tables_fit volts.now heat.now ≡ true },
}

// The tables have one length, from 1 to the most.
pub fn tables_fit(v: &[u16], t: &[i16]) -> bool
    ensures { result ≡ tables_fit v.now t.now }
{
    (v.len() == t.len()) & ((1 <= v.len()) & (v.len() <= MOST))
}

// No early exit: every cell is looked at, so that a turn hangs on nothing but its own cell.
#[tactic(auto, using(crate::proofs::Every::every_more), unfolding(crate::specs::Tables::every))]
fn all_in_range<R: Reading>(cells: &[R]) -> bool
    ensures { result ≡ every R.ok cells.now }
{
    let mut ok = true;
    for cell in cells {
        ok &= cell.in_range();
    }
    ok
}

// Every cell of both tables is in its range.
pub fn in_range(v: &[u16], t: &[i16]) -> bool
    ensures { result ≡ cells_in_range v.now t.now }
{
    let voltages = all_in_range(v);
    let temperatures = all_in_range(t);
    voltages & temperatures
}

// The cell at a place as it is sent, and 0 past the end.
pub fn value_at<R: Reading>(cells: &[R], i: usize) -> R::Unit
    ensures { result ≡ R.Unit.of (get_or (map R.sent cells.now) i 0) }
{
    R::Unit::of(cells.get(i).map_or(0, |cell| cell.sent()))
}
