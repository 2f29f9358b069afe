// A group of cells as it is sent: four voltages or eight temperatures, the first cell last (01, "Broadcasts and cell
// answers").
ghost use Rattle.std.specs.Prelude.{◌≡◌};
ghost use Rattle.cells.specs.Groups.{byte_at, voltage_group, temperature_group};

use crate::{sent, tables};

// The cells of a group.
pub const VOLTAGES: usize = 4;

pub const TEMPERATURES: usize = 8;

// Stays two: a voltage takes two bytes and a temperature one, so that the two groups have no line in common.
pub fn voltage_group(v: &[u16], group: u8) -> [u8; 8]
    ensures { result ≡ voltage_group v.now group }
{
    let first = group as usize * VOLTAGES;
    let [a, b] = tables::value_at(v, first + 3).0.to_le_bytes();
    let [c, d] = tables::value_at(v, first + 2).0.to_le_bytes();
    let [e, f] = tables::value_at(v, first + 1).0.to_le_bytes();
    let [g, h] = tables::value_at(v, first).0.to_le_bytes();
    [a, b, c, d, e, f, g, h]
}

// The byte that is sent of the temperature at a place, and 0 past the end.
fn byte_at(t: &[i16], i: usize) -> u8
    ensures { result ≡ byte_at t.now i }
{
    sent::temperature_byte(tables::value_at(t, i))
}

pub fn temperature_group(t: &[i16], group: u8) -> [u8; 8]
    ensures { result ≡ temperature_group t.now group }
{
    let first = group as usize * TEMPERATURES;
    [
        byte_at(t, first + 7),
        byte_at(t, first + 6),
        byte_at(t, first + 5),
        byte_at(t, first + 4),
        byte_at(t, first + 3),
        byte_at(t, first + 2),
        byte_at(t, first + 1),
        byte_at(t, first),
    ]
}
