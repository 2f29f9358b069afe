// Settings written as a record (01, "Settings record", numbers 2 and 17).
ghost use Rattle.std.specs.Prelude.{◌≡◌, ◌++◌, ◌+◌, ◌≤◌, length};
ghost use Rattle.buffers.specs.InnerLaid.{Laid};
ghost use Rattle.settings.specs.Record.{field, version_list, record_of};
ghost use Rattle.settings.specs.Range.{station_list};
ghost use Rattle.settings.specs.Write.{written, Wrote};

use crate::{Settings, range};
use numbers::Refusal;

// The bytes of the record up to its stations: tags 1 to 5 whole, and tag 6's tag and length.
#[tactic(auto, unfolding(crate::specs::Record::record_of))]
fn front(x: Settings) -> [u8; 27]
    requires { x.stations.count ≤ 4 }
    ensures { (length result ≡ 27)
        × (record_of x ≡ result ++ (station_list x.stations ++ field 7 (version_list x.versions))) }
{
    let m = x.limits;
    let [v0, v1] = m.cell.0.to_le_bytes();
    let [a0, a1] = m.current.0.to_le_bytes();
    let [p0, p1] = m.pack.0.to_le_bytes();
    let [t0, t1] = m.temperature.0.to_le_bytes();
    let [n0, n1] = x.stations.count.to_le_bytes();
    [
        1, 1, 0, x.own, 2, 2, 0, v0, v1, 3, 2, 0, a0, a1, 4, 2, 0, p0, p1, 5, 2, 0, t0, t1, 6, n0,
        n1,
    ]
}

// The record laid from the buffer's start.
fn lay_record(x: Settings, buf: &mut [u8]) -> usize
    requires { (x.stations.count ≤ 4) × (35 + x.stations.count ≤ length buf.old) }
    ensures { Laid buf.old buf.new 0 result (record_of x) }
{
    let s = x.stations;
    let v = x.versions;
    let n = s.count as usize;
    let f = front(x);
    let a = buffers::lay(&f, buf, 0);
    let t = [s.first, s.second, s.third, s.fourth];
    let b = buffers::lay(&t[0..n], buf, a);
    let e = [7, 5, 0, v.first, v.second, v.third, v.fourth, v.fifth];
    buffers::lay(&e, buf, b)
}

// The settings as a record from the buffer's start: the bytes written, or the refusal.
pub fn write_settings(x: Settings, buf: &mut [u8]) -> Result<usize, Refusal>
    ensures { Wrote x buf.old buf.new (written result) }
{
    if !range::in_range(x) {
        return Err(Refusal::SettingOutOfRange);
    }
    if buf.len() < 35 + x.stations.count as usize {
        return Err(Refusal::RecordBuffer);
    }
    Ok(lay_record(x, buf))
}
