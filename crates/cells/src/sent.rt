// A temperature as it is sent, and the byte that is sent of a temperature, of a count and of an index: each rule in one
// place, for broadcasts, cell answers and the station's frames alike.
ghost use Rattle.std.specs.Prelude.{◌≡◌};
ghost use Rattle.cells.specs.Sent.{as_sent, temperature_byte, count_byte, index_byte};

use units::SentDegrees;

// F + 50. (A temperature below -50 F is outside its range, and then this is how far below.)
pub fn as_sent(t: i16) -> SentDegrees
    ensures { result.0 ≡ as_sent t }
{
    SentDegrees(t.abs_diff(-50))
}

// Stays three: each is a rule of its own, which may move alone, and one function for all would say at no call which
// rule it is.
pub fn temperature_byte(t: SentDegrees) -> u8
    ensures { result ≡ temperature_byte t.0 }
{
    let [low, _] = t.0.to_le_bytes();
    low
}

pub fn count_byte(count: u16) -> u8
    ensures { result ≡ count_byte count }
{
    let [low, _] = count.to_le_bytes();
    low
}

pub fn index_byte(index: u16) -> u8
    ensures { result ≡ index_byte index }
{
    let [low, _] = index.to_le_bytes();
    low
}
