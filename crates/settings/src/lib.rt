// The settings record: read from bytes and written as bytes, and the range of each value (01, "Settings record",
// numbers 1, 2 and 17). Reading and writing take anything: any bytes, any settings value, any buffer. This crate may
// not know frames or sessions.
#![tactic(auto)]

use units::{HundredthVolts, SentDegrees, TenthAmps, TenthVolts};

pub mod range;
pub mod read;
pub mod write;

// The stations of the list: the first `count` of the four places. They stay fields, since in a theorem over any settings
// (`read_after_write`) an array would be a list of any length.
#[derive(Clone, Copy)]
pub struct Stations {
    pub count: u16,
    pub first: u8,
    pub second: u8,
    pub third: u8,
    pub fourth: u8,
}

// The five version bytes. They stay fields, as the stations do (`length_record`).
#[derive(Clone, Copy)]
pub struct Versions {
    pub first: u8,
    pub second: u8,
    pub third: u8,
    pub fourth: u8,
    pub fifth: u8,
}

// The four maxima: of a cell's voltage, of the current, of the pack voltage and of a cell's temperature.
#[derive(Clone, Copy)]
pub struct Limits {
    pub cell: HundredthVolts,
    pub current: TenthAmps,
    pub pack: TenthVolts,
    pub temperature: SentDegrees,
}

// Own address, the maxima, the stations and the versions, in the order of the record.
#[derive(Clone, Copy)]
pub struct Settings {
    pub own: u8,
    pub limits: Limits,
    pub stations: Stations,
    pub versions: Versions,
}
