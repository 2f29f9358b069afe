// When the broadcasts are sent (01, "Broadcasts and cell answers"). The number of accepted ticks grows for ever; what
// is kept of it is the number modulo 60, which passes the same tests and cannot overflow.
ghost use Rattle.std.specs.Prelude.{◌≡◌};
ghost use Rattle.broadcasts.specs.Beat.{due_at, heartbeat_at, first_beat, next_beat};

// The broadcasts are sent each so many accepted ticks.
pub const EACH: u8 = 30;

// The last tick of two sendings, one without the heartbeat and one with it.
const LAST: u8 = 2 * EACH - 1;

#[derive(Clone, Copy)]
pub struct Beat {
    pub tick: u8,
}

impl Beat {
    // Of a fresh controller: the next tick is tick 0.
    pub fn first() -> Beat
        ensures { result ≡ first_beat }
    {
        Beat { tick: 0 }
    }

    // This tick sends the broadcasts.
    pub fn due(self) -> bool
        ensures { result ≡ due_at self.tick }
    {
        self.tick % EACH == 0
    }

    // The sending of this tick has the heartbeat on.
    pub fn heartbeat(self) -> bool
        ensures { result ≡ heartbeat_at self.tick }
    {
        self.tick / EACH % 2 == 1
    }

    // One accepted tick later.
    pub fn next(self) -> Beat
        ensures { result ≡ next_beat self }
    {
        let tick = self.tick;
        if tick < LAST {
            Beat { tick: tick + 1 }
        } else {
            Beat { tick: 0 }
        }
    }
}
