// What the oldest query is answered at a tick (01, "Broadcasts and cell answers"): one group of its table, or nothing
// where its next group begins past the table, which may be shorter than it was a tick ago.
ghost use Rattle.std.specs.Prelude.{◌≡◌, ◌+◌, ◌*◌, ◌≤◌, ◌<◌};
ghost use Rattle.messages.specs.Table.{pf_of};
ghost use Rattle.cells.specs.Tables.{most_cells};
ghost use Rattle.queries.specs.Answering.{per_group, row_after, group_row, group_frame, Answers};

use crate::{Queries, Query};
use cells::groups;
use cells::tables::Tables;
use frames::Frame;
use messages::received::Kind;
use messages::table;
use messages::table::Row;

// What a kind is asked for goes by a match in each of these three: a kind names a row and a group of its own, and
// `cells::reading::Reading` is of a cell's type, which knows neither.

// The cells that stand before a group.
fn cells_before(kind: Kind, group: usize) -> usize
    requires { group ≤ 256 }
    ensures { result ≡ group * per_group kind }
{
    match kind {
        Kind::Voltages => group * groups::VOLTAGES,
        Kind::Temperatures => group * groups::TEMPERATURES,
    }
}

// A row with a higher PF.
fn row_after(row: Row, group: u8) -> Row
    requires { pf_of row + group < 256 }
    ensures { result ≡ row_after row group }
{
    Row(row.pf() + group, row.priority(), row.length(), row.ps())
}

// The row of a group that begins within a table.
fn row_of(kind: Kind, group: u8) -> Row
    requires { group * per_group kind < most_cells }
    ensures { result ≡ group_row kind group }
{
    match kind {
        Kind::Voltages => row_after(table::VOLTAGES, group),
        Kind::Temperatures => row_after(table::TEMPERATURES, group),
    }
}

#[tactic(auto, unfolding(crate::specs::Answering::group_frame, crate::specs::Answering::group_bytes))]
fn group_frame(q: Query, own: u8, tables: &Tables) -> Frame
    requires { q.group * per_group q.kind < most_cells }
    ensures { result ≡ group_frame own tables.now.volts.now tables.now.heat.now q }
{
    let row = row_of(q.kind, q.group);
    let bytes = match q.kind {
        Kind::Voltages => groups::voltage_group(tables.volts, q.group),
        Kind::Temperatures => groups::temperature_group(tables.heat, q.group),
    };
    Frame::new(row, q.source, own, bytes)
}

impl Queries {
    // One tick: the frame, where one is due.
    pub fn answer(&mut self, own: u8, tables: &Tables) -> Option<Frame>
        ensures { Answers self.old own tables.now.volts.now tables.now.heat.now self.new result }
    {
        if self.count == 0 {
            *self = Queries::none();
            return None;
        }
        let oldest = self.first;
        let group = oldest.group as usize;
        let n = tables.volts.len();
        if n <= cells_before(oldest.kind, group) {
            *self = self.left();
            return None;
        }
        let frame = group_frame(oldest, own, tables);
        *self = if n <= cells_before(oldest.kind, group + 1) {
            self.left()
        } else {
            self.moved()
        };
        Some(frame)
    }
}
