// Whether every value of the settings is in its range (01, "Settings record", number 2).
ghost use Rattle.std.specs.Prelude.{◌≡◌};
ghost use Rattle.settings.specs.Range.{within, lacks, distinct, each_good, good_stations, limits_in_range, in_range};

use crate::{Limits, Settings, Stations};

// The ranges, as the paper has them: what is not named begins at 0.
pub const LAST_ADDRESS: u8 = 253;

pub const LEAST_CELL: u16 = 200;

pub const MOST_CELL: u16 = 500;

pub const LEAST_CURRENT: u16 = 60;

pub const MOST_CURRENT: u16 = 4000;

pub const LEAST_PACK: u16 = 1;

pub const MOST_PACK: u16 = 65535;

pub const MOST_TEMPERATURE: u16 = 255;

pub const LEAST_STATIONS: u16 = 1;

pub const MOST_STATIONS: u16 = 4;

#[tactic(auto, unfolding(crate::specs::Range::within))]
pub fn within(least: u16, most: u16, n: u16) -> bool
    ensures { result ≡ within least most n }
{
    (least..=most).contains(&n)
}

// No address of the list is this one. This and the two tests below stay recursions over the list's pattern and no
// `contains` or `all`: they are the definitions read aloud, and a chain needs a law beside it to be that definition.
fn lacks(a: u8, l: &[u8]) -> bool
    ensures { result ≡ lacks a l.now }
{
    match l {
        [] => true,
        [b, rest @ ..] => (a != *b) & lacks(a, rest),
    }
}

fn distinct(l: &[u8]) -> bool
    ensures { result ≡ distinct l.now }
{
    match l {
        [] => true,
        [a, rest @ ..] => lacks(*a, rest) & distinct(rest),
    }
}

// Each is 0 to 253 and not our own.
fn each_good(own: u8, l: &[u8]) -> bool
    ensures { result ≡ each_good own l.now }
{
    match l {
        [] => true,
        [a, rest @ ..] => ((*a <= LAST_ADDRESS) & (*a != own)) & each_good(own, rest),
    }
}

// One to four stations, distinct, each 0 to 253 and none our own.
#[tactic(auto, unfolding(crate::specs::Range::good_stations, crate::specs::Range::within))]
fn good_stations(own: u8, s: Stations) -> bool
    ensures { result ≡ good_stations own s }
{
    if !within(LEAST_STATIONS, MOST_STATIONS, s.count) {
        return false;
    }
    let four = [s.first, s.second, s.third, s.fourth];
    let list = &four[..s.count as usize];
    distinct(list) & each_good(own, list)
}

// Each of the maxima.
#[tactic(auto, unfolding(crate::specs::Range::limits_in_range))]
fn limits_in_range(l: Limits) -> bool
    ensures { result ≡ limits_in_range l }
{
    let cell = within(LEAST_CELL, MOST_CELL, l.cell.0);
    let current = within(LEAST_CURRENT, MOST_CURRENT, l.current.0);
    let pack = within(LEAST_PACK, MOST_PACK, l.pack.0);
    let temperature = within(0, MOST_TEMPERATURE, l.temperature.0);
    cell & (current & (pack & temperature))
}

#[tactic(auto, unfolding(crate::specs::Range::in_range))]
pub fn in_range(x: Settings) -> bool
    ensures { result ≡ in_range x }
{
    let own = within(0, LAST_ADDRESS as u16, x.own as u16);
    let limits = limits_in_range(x.limits);
    let stations = good_stations(x.own, x.stations);
    own & (limits & stations)
}
