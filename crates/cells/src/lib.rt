// The cell tables that a tick lends: whether they may be taken, what is said of a table as a whole (its count, sum,
// highest and lowest), and its groups as they are sent (01, "Readings", "Broadcasts and cell answers"). This crate may
// not know sessions, queries or when anything is sent.
//
// A lent table is a slice of plain numbers, `&[u16]` or `&[i16]`, as the caller has them. What the two kinds of cell
// differ in is said once, in `reading`; each figure has its unit.
#![tactic(auto)]

pub mod accepted;
pub mod figures;
pub mod groups;
pub mod reading;
pub mod sent;
pub mod tables;

use units::{HundredthVolts, SentDegrees};

// A cell's value in its unit, and its index from 1.
#[derive(Clone, Copy)]
pub struct Cell<U> {
    pub value: U,
    pub index: u16,
}

// What is said of one table, of either kind.
#[derive(Clone, Copy)]
pub struct Summary<U> {
    pub count: u16,
    pub sum: u32,
    pub highest: Cell<U>,
    pub lowest: Cell<U>,
}

// Of both tables. A temperature is as it is sent, F + 50.
#[derive(Clone, Copy)]
pub struct Cells {
    pub volts: Summary<HundredthVolts>,
    pub heat: Summary<SentDegrees>,
}
