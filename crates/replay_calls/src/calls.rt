// What is lent cut to its first so many, and the two entry points called that write into a part of a buffer: slices are
// cut here, and nowhere else.
ghost use Rattle.std.specs.Prelude.{◌≡◌, take};
ghost use Rattle.settings.specs.Write.{written};
ghost use Rattle.controller.specs.Tick.{ticked};
ghost use Rattle.replay_calls.specs.Calls.{TickLent, WriteLent};

use controller::Controller;
use numbers::Refusal;
use replay_script::lent::Lent;

// The first n of a slice, or all of a shorter one.
#[tactic(auto, using(std::proofs::lemmas::List::take_min))]
pub fn first<T>(s: &[T], n: usize) -> &[T]
    ensures { result.now ≡ take n s.now }
{
    &s[..n.min(s.len())]
}

// A tick that is lent the first so many of each.
pub fn tick(
    c: &mut Controller,
    l: Lent,
    v: &[u16],
    t: &[i16],
    buf: &mut [u8],
) -> Result<usize, Refusal>
    ensures { TickLent c.old l v.now t.now buf.old buf.new (ticked result c.new) }
{
    let room = l.room.min(buf.len());
    c.tick(
        l.readings,
        first(v, l.volts),
        first(t, l.temps),
        &mut buf[..room],
    )
}

// The settings in use written into the first n bytes. Stays a count beside the buffer, as in a tick: `WriteLent` and
// `TickLent` speak of the rest of the buffer too.
pub fn write(c: &Controller, buf: &mut [u8], n: usize) -> Result<usize, Refusal>
    ensures { WriteLent c.now.settings n buf.old buf.new (written result) }
{
    let room = n.min(buf.len());
    c.write(&mut buf[..room])
}
