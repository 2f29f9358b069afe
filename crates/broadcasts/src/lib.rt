// The five broadcasts as values, and the beat that says when they are sent and whether the heartbeat is on (01,
// "Broadcasts and cell answers"). This crate may not know sessions, queries, or the buffer that the frames go into.
#![tactic(auto)]

ghost use Rattle.std.specs.Prelude.{◌≡◌};
ghost use Rattle.broadcasts.specs.Sendings.{in_order};
ghost use Rattle.broadcasts.specs.Layouts.{status_byte, ps_of, cvs_of, cts_of, fws_of, ec_of, broadcasts_of};

use cells::accepted::Accepted;
use cells::sent;
use frames::Frame;
use messages::table;
use readings::Readings;
use settings::Versions;

pub mod beat;

// In the order in which they are sent. They stay five fields, since each is made by its message's name, and the laws
// of a broadcast read it by that name; the array of them is `in_order`.
#[derive(Clone, Copy)]
pub struct Broadcasts {
    pub ps: Frame,
    pub cvs: Frame,
    pub cts: Frame,
    pub fws: Frame,
    pub ec: Frame,
}

// A broadcast takes of our address, the readings, the cells and the versions what its frame has. They stay parameters: no
// two of the five take the same but CVS and CTS.

// Status byte one with 80 hex on or clear; whatever stands in that bit already gives way.
fn status_byte(heartbeat: bool, one: u8) -> u8
    ensures { result ≡ status_byte heartbeat one }
{
    if heartbeat {
        one % 128 + 128
    } else {
        one % 128
    }
}

#[tactic(auto, unfolding(crate::specs::Layouts::ps_of))]
fn ps(own: u8, heartbeat: bool, readings: Readings, accepted: Accepted) -> Frame
    ensures { result ≡ ps_of own heartbeat readings accepted.cells }
{
    let status = status_byte(heartbeat, readings.one);
    let count = sent::count_byte(accepted.cells.volts.count);
    let [c0, c1] = readings.current_bits().to_le_bytes();
    let [p0, p1] = readings.pack.0.to_le_bytes();
    let bytes = [status, readings.two, readings.soc, count, c0, c1, p0, p1];
    Frame::new(table::PS, 0, own, bytes)
}

#[tactic(auto, unfolding(crate::specs::Layouts::cvs_of))]
fn cvs(own: u8, accepted: Accepted) -> Frame
    ensures { result ≡ cvs_of own accepted.cells }
{
    let volts = accepted.cells.volts;
    let [a0, a1] = volts.average().0.to_le_bytes();
    let [h0, h1] = volts.highest.value.0.to_le_bytes();
    let [l0, l1] = volts.lowest.value.0.to_le_bytes();
    let highest = sent::index_byte(volts.highest.index);
    let lowest = sent::index_byte(volts.lowest.index);
    let bytes = [a0, a1, highest, h0, h1, lowest, l0, l1];
    Frame::new(table::CVS, 0, own, bytes)
}

#[tactic(auto, unfolding(crate::specs::Layouts::cts_of))]
fn cts(own: u8, accepted: Accepted) -> Frame
    ensures { result ≡ cts_of own accepted.cells }
{
    let heat = accepted.cells.heat;
    let bytes = [
        sent::index_byte(heat.highest.index),
        sent::temperature_byte(heat.highest.value),
        sent::index_byte(heat.lowest.index),
        sent::temperature_byte(heat.lowest.value),
        sent::temperature_byte(heat.average()),
        0,
        0,
        0,
    ];
    Frame::new(table::CTS, 0, own, bytes)
}

#[tactic(auto, unfolding(crate::specs::Layouts::fws_of))]
fn fws(own: u8, readings: Readings) -> Frame
    ensures { result ≡ fws_of own readings }
{
    let faults = readings.faults;
    let warnings = readings.warnings;
    let bytes = [
        faults.active,
        faults.latched,
        warnings.active,
        warnings.latched,
        0,
        0,
        0,
        0,
    ];
    Frame::new(table::FWS, 0, own, bytes)
}

#[tactic(auto, unfolding(crate::specs::Layouts::ec_of))]
fn ec(own: u8, versions: Versions) -> Frame
    ensures { result ≡ ec_of own versions }
{
    let v = versions;
    let bytes = [v.first, v.second, v.third, v.fourth, v.fifth, 0, 0, 0];
    Frame::new(table::EC, 0, own, bytes)
}

impl Broadcasts {
    // The five of one sending, of cells whose tables were accepted.
    pub fn new(
        own: u8,
        versions: Versions,
        heartbeat: bool,
        readings: Readings,
        accepted: Accepted,
    ) -> Broadcasts
        ensures { result ≡ broadcasts_of own versions heartbeat readings accepted.cells }
    {
        Broadcasts {
            ps: ps(own, heartbeat, readings, accepted),
            cvs: cvs(own, accepted),
            cts: cts(own, accepted),
            fws: fws(own, readings),
            ec: ec(own, versions),
        }
    }
    // As they are sent.
    pub fn in_order(self) -> [Frame; 5]
        ensures { result ≡ in_order self }
    {
        [self.ps, self.cvs, self.cts, self.fws, self.ec]
    }
}
