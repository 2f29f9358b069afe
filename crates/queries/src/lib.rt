// Cell queries: who waits for which table, and what the oldest is answered at a tick, a group of cells as one frame
// (01, "Broadcasts and cell answers", numbers 12 and 13). Any value of the types is accepted, also one that no run
// reaches. This crate may not know sessions, broadcasts, or the buffer that a frame goes into.
#![tactic(auto)]

pub mod answering;
pub mod asking;
pub mod places;

use messages::received::Kind;

// Who asks, for what, and the group that is sent next, from 0.
#[derive(Clone, Copy)]
pub struct Query {
    pub source: u8,
    pub kind: Kind,
    pub group: u8,
}

// The waiting queries, the oldest first: the first `count` of the four places. They stay fields with a count that may be
// any byte: the entry points promise of any controller, also of one whose count is above four (`FrameIs`, `TickIs`), and
// in the theorems over any controller an array would be a list of any length.
#[derive(Clone, Copy)]
pub struct Queries {
    pub count: u8,
    pub first: Query,
    pub second: Query,
    pub third: Query,
    pub fourth: Query,
}
