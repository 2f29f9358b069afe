// A settings record read: the whole layout first, then the ranges (01, "Settings record", numbers 1 and 2).
ghost use Rattle.std.specs.Prelude.{◌≡◌, ◌≤◌};
ghost use Rattle.settings.specs.Read.{head_at, layout_of, station_at, stations_at, versions_at, limits_of, settings_of};
ghost use Rattle.settings.specs.Read.{record_number, read_of};
ghost use Rattle.numbers.specs.Numbers.{answered};

use crate::{Limits, Settings, Stations, Versions, range};
use numbers::Refusal;
use units::{HundredthVolts, SentDegrees, TenthAmps, TenthVolts};

// A field's tag and its two-byte length at a place.
#[tactic(auto, unfolding(crate::specs::Read::head_at))]
fn head(s: &[u8], at: usize, tag: u8, n: u16) -> bool
    requires { at ≤ 0x2_0000 }
    ensures { result ≡ head_at s.now at tag n }
{
    let t = buffers::byte_at(s, at);
    let l = buffers::word_at(s, at + 1);
    (t == tag) & (l == n)
}

// Each field once, in its order and place, with nothing after.
#[tactic(auto, unfolding(crate::specs::Read::layout_of))]
fn layout(s: &[u8]) -> bool
    ensures { result ≡ layout_of s.now }
{
    let n = buffers::word_at(s, 25);
    let some = range::within(range::LEAST_STATIONS, range::MOST_STATIONS, n);
    if some {
        let k = n as usize;
        let a = head(s, 0, 1, 1);
        let b = head(s, 4, 2, 2);
        let c = head(s, 9, 3, 2);
        let d = head(s, 14, 4, 2);
        let e = head(s, 19, 5, 2);
        let f = head(s, 24, 6, n);
        let g = head(s, 27 + k, 7, 5);
        (s.len() == 35 + k) & (a & (b & (c & (d & (e & (f & g))))))
    } else {
        false
    }
}

// A station of the record, and 0 past the last.
#[tactic(auto, unfolding(crate::specs::Read::station_at))]
fn station(s: &[u8], n: u16, i: u16) -> u8
    ensures { result ≡ station_at s.now n i }
{
    if i < n {
        buffers::byte_at(s, 27 + i as usize)
    } else {
        0
    }
}

#[tactic(auto, unfolding(crate::specs::Read::stations_at))]
fn stations(s: &[u8], n: u16) -> Stations
    ensures { result ≡ stations_at s.now n }
{
    Stations {
        count: n,
        first: station(s, n, 0),
        second: station(s, n, 1),
        third: station(s, n, 2),
        fourth: station(s, n, 3),
    }
}

#[tactic(auto, unfolding(crate::specs::Read::versions_at))]
fn versions(s: &[u8], at: usize) -> Versions
    requires { at ≤ 0x2_0000 }
    ensures { result ≡ versions_at s.now at }
{
    Versions {
        first: buffers::byte_at(s, at),
        second: buffers::byte_at(s, at + 1),
        third: buffers::byte_at(s, at + 2),
        fourth: buffers::byte_at(s, at + 3),
        fifth: buffers::byte_at(s, at + 4),
    }
}

// The maxima of a record whose layout is right.
#[tactic(auto, unfolding(crate::specs::Read::limits_of))]
fn limits(s: &[u8]) -> Limits
    ensures { result ≡ limits_of s.now }
{
    Limits {
        cell: HundredthVolts(buffers::word_at(s, 7)),
        current: TenthAmps(buffers::word_at(s, 12)),
        pack: TenthVolts(buffers::word_at(s, 17)),
        temperature: SentDegrees(buffers::word_at(s, 22)),
    }
}

// The values of a record whose layout is right.
#[tactic(auto, unfolding(crate::specs::Read::settings_of))]
fn values(s: &[u8]) -> Settings
    ensures { result ≡ settings_of s.now }
{
    let n = buffers::word_at(s, 25);
    Settings {
        own: buffers::byte_at(s, 3),
        limits: limits(s),
        stations: stations(s, n),
        versions: versions(s, 30 + n as usize),
    }
}

// The settings of a record, or the refusal.
#[tactic(auto, unfolding(crate::specs::Read::record_number, crate::specs::Read::read_of))]
pub fn read_settings(s: &[u8]) -> Result<Settings, Refusal>
    ensures number { answered result ≡ record_number s.now }
    ensures answer { result ≡ read_of s.now }
{
    if !layout(s) {
        return Err(Refusal::Layout);
    }
    let x = values(s);
    if !range::in_range(x) {
        return Err(Refusal::SettingOutOfRange);
    }
    Ok(x)
}
