// What is said of a table (01, "Broadcasts and cell answers"), of the cells as they are sent: a walk for each figure,
// then a search for the first cell that has the highest, and for the first that has the lowest. No table of what is
// sent is made.
ghost use Rattle.std.specs.Prelude.{◌≡◌, ◌*◌, ◌≤◌, ◌<◌, length, map};
ghost use Rattle.cells.specs.Tables.{most_cells};
ghost use Rattle.cells.specs.Summaries.{sum_of, highest_of, lowest_of, index_from, cell_from, summary_of, average_of, cells_of};

use crate::reading::{Reading, Unit};
use crate::tables::Tables;
use crate::{Cell, Cells, Summary};

// A table of no more cells than a table may hold.
#[derive(Drop)]
struct Table<'a, R> {
    cells: &'a [R],
    ghost short: { length cells.now ≤ most_cells },
}

impl<R: Reading> Table<'_, R> {
    fn sum(&self) -> u32
        ensures { result ≡ sum_of (map R.sent self.now.cells.now) }
    {
        self.cells.iter().map(|cell| u32::from(cell.sent())).sum()
    }

    fn highest(&self) -> u16
        ensures { result ≡ highest_of (map R.sent self.now.cells.now) }
    {
        self.cells
            .iter()
            .fold(0, |high, cell| cell.sent().max(high))
    }

    fn lowest(&self) -> u16
        ensures { result ≡ lowest_of (map R.sent self.now.cells.now) }
    {
        match self.cells {
            [] => 0,
            [first, rest @ ..] => rest
                .iter()
                .fold(first.sent(), |low, cell| cell.sent().min(low)),
        }
    }

    // The index of the first cell that has the value, from 1; 0 where none has it.
    fn index_of(&self, value: u16) -> u16
        ensures { result ≡ index_from 1 value (map R.sent self.now.cells.now) }
    {
        match self.cells.iter().position(|cell| cell.sent() == value) {
            Some(i) => (i + 1) as u16,
            None => 0,
        }
    }

    // A value in its unit, with its index.
    fn cell(&self, value: u16) -> Cell<R::Unit>
        ensures { result ≡ cell_from R.Unit.of 1 value (map R.sent self.now.cells.now) }
    {
        Cell {
            value: R::Unit::of(value),
            index: self.index_of(value),
        }
    }

    fn summary(&self) -> Summary<R::Unit>
        ensures { result ≡ summary_of R.Unit.of (map R.sent self.now.cells.now) }
    {
        Summary {
            count: self.cells.len() as u16,
            sum: self.sum(),
            highest: self.cell(self.highest()),
            lowest: self.cell(self.lowest()),
        }
    }
}

impl Tables<'_> {
    // Both tables.
    pub fn summarize(&self) -> Cells
        ensures { result ≡ cells_of self.now.volts.now self.now.heat.now }
    {
        Cells {
            volts: Table { cells: self.volts }.summary(),
            heat: Table { cells: self.heat }.summary(),
        }
    }
}

impl<U: Unit> Summary<U> {
    // The average, rounded down.
    pub fn average(self) -> U
        requires { (0 < self.count) × (self.sum ≤ 65535 * self.count) }
        ensures { result ≡ U.of (average_of self) }
    {
        U::of((self.sum / u32::from(self.count)) as u16)
    }
}
