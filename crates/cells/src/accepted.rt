// The figures of tables of which neither 14 nor 15 was said: every number of theirs has room in its place of a frame.
ghost use Rattle.cells.specs.InnerBounds.{BoundedCells};

use crate::Cells;

#[derive(Clone, Copy)]
pub struct Accepted {
    pub cells: Cells,
    pub ghost bounded: { BoundedCells cells },
}
