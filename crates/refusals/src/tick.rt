// The tests of a tick (01, "Numbers returned", 14 to 16).
ghost use Rattle.std.specs.Prelude.{◌≡◌};
ghost use Rattle.numbers.specs.Numbers.{answered};
ghost use Rattle.refusals.specs.Tick.{tick_number};

use cells::tables;
use frames::Frame;
use numbers::Refusal;
use readings::Readings;

// The most frames that a tick sends: three to the station, five broadcasts, and one of cells.
const FRAMES: usize = 9;

// The room of so many.
const ROOM: usize = FRAMES * Frame::RECORD;

// 14 to 16, in numeric order.
#[tactic(auto, unfolding(crate::specs::Tick::tick_number))]
pub fn check(r: Readings, v: &[u16], t: &[i16], room: usize) -> Result<(), Refusal>
    ensures { answered result ≡ tick_number r v.now t.now room }
{
    if !tables::tables_fit(v, t) {
        return Err(Refusal::Tables);
    }
    let readings = r.in_range();
    let cells = tables::in_range(v, t);
    if !(readings & cells) {
        return Err(Refusal::ReadingOutOfRange);
    }
    if room < ROOM {
        return Err(Refusal::TickBuffer);
    }
    Ok(())
}
