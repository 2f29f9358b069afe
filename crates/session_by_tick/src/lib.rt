// What a tick makes of a session's state, before any frame (01, "Session by tick"): silence, charge not wanted, the
// stops of Charging in their order, the phase, the EST bytes fixed at Stopping's first tick, and the ends of Stopping
// and Error. This crate may not know addresses, frames or how counts go on.
#![tactic(auto)]

ghost use Rattle.std.specs.Prelude.{◌≡◌, cond, ◌≤◌};
ghost use Rattle.session_by_tick.specs.Turns.{cell_full, pack_full, current_above, est_first, est_second, stop_of, est_of, waiting_of, phase_turn, stops_of, charging_of, stopping_of, error_of, turn_of};

use cells::Cells;
use readings::Readings;
use session_states::limits;
use session_states::phases::{Cause, Phase};
use session_states::states::{Est, State};
use settings::Settings;
use std::ops::ControlFlow;

// What a tick has beside the session: the settings in use, its readings, and the figures of its cells.
#[derive(Clone, Copy)]
pub struct Tick {
    pub settings: Settings,
    pub readings: Readings,
    pub cells: Cells,
}

// What a tick makes of a session's state.
#[derive(Clone, Copy)]
pub enum Turn {
    // The state goes on, its count with it.
    On(State),
    // The state begins, its count 0.
    Enter(State),
    // One EIM 00, and the session ends to Idle.
    Farewell,
    // The session ends to Idle.
    End,
}

// A bit of a byte, where it is to be set.
fn bit(on: bool, place: u8) -> u8
    ensures is { result ≡ cond on place 0 }
    ensures most { result ≤ place }
{
    if on { place } else { 0 }
}

impl Tick {
    // The highest cell is at or above the maximum.
    #[tactic(auto, unfolding(crate::specs::Turns::cell_full))]
    fn cell_full(&self) -> bool
        ensures { result ≡ cell_full self.now.settings self.now.cells }
    {
        self.cells.volts.highest.value >= self.settings.limits.cell
    }

    // The pack voltage is at or above the maximum.
    #[tactic(auto, unfolding(crate::specs::Turns::pack_full))]
    fn pack_full(&self) -> bool
        ensures { result ≡ pack_full self.now.settings self.now.readings }
    {
        self.readings.pack >= self.settings.limits.pack
    }

    // The current is above the maximum.
    #[tactic(auto, unfolding(crate::specs::Turns::current_above))]
    fn current_above(&self) -> bool
        ensures { result ≡ current_above self.now.settings self.now.readings }
    {
        self.readings.current_above(self.settings.limits.current)
    }

    #[tactic(auto, unfolding(crate::specs::Turns::est_first, crate::specs::Turns::is_other))]
    fn est_first(&self, cause: Cause) -> u8
        ensures { result ≡ est_first self.now.settings self.now.readings self.now.cells cause }
    {
        let soc = bit(self.readings.soc == 100, 0x01);
        let pack = bit(self.pack_full(), 0x04);
        let cell = bit(self.cell_full(), 0x10);
        let other = bit(cause == Cause::Other, 0x40);
        soc + pack + cell + other
    }

    #[tactic(auto, unfolding(crate::specs::Turns::est_second))]
    fn est_second(&self) -> u8
        ensures { result ≡ est_second self.now.settings self.now.readings }
    {
        bit(self.current_above(), 0x01)
    }

    #[tactic(auto, unfolding(crate::specs::Turns::est_of))]
    fn fixed(&self, cause: Cause) -> Option<Est>
        ensures { result ≡ est_of self.now.settings self.now.readings self.now.cells cause }
    {
        Some(Est {
            first: self.est_first(cause),
            second: self.est_second(),
        })
    }

    // Stopping begins on this tick, which is its first.
    #[tactic(auto, unfolding(crate::specs::Turns::stop_of))]
    fn stop(&self, cause: Cause) -> Turn
        ensures { result ≡ stop_of self.now.settings self.now.readings self.now.cells cause }
    {
        let est = self.fixed(cause);
        Turn::Enter(State::Stopping {
            acknowledged: false,
            est,
        })
    }

    // Offered to Ready.
    #[tactic(auto, unfolding(crate::specs::Turns::waiting_of))]
    fn waiting(&self, silence: u16, state: State) -> Turn
        ensures { result ≡ waiting_of self.now.readings silence state }
    {
        if limits::SILENCE <= silence {
            Turn::Enter(State::Error)
        } else if self.readings.wanted() {
            Turn::On(state)
        } else {
            Turn::Farewell
        }
    }

    #[tactic(auto, unfolding(crate::specs::Turns::phase_turn, crate::specs::Turns::phase_on))]
    fn phase_turn(&self, p: Phase) -> Turn
        ensures { result ≡ phase_turn self.now.settings self.now.readings self.now.cells p }
    {
        let full = self.cell_full();
        match p.after_tick(full) {
            ControlFlow::Continue(q) => Turn::On(State::Charging(q)),
            ControlFlow::Break(cause) => self.stop(cause),
        }
    }

    // The stops of Charging, in their order.
    #[tactic(auto, unfolding(crate::specs::Turns::stops_of))]
    fn stops(&self, p: Phase) -> Turn
        ensures { result ≡ stops_of self.now.settings self.now.readings self.now.cells p }
    {
        if self.current_above() {
            self.stop(Cause::Other)
        } else if self.pack_full() {
            self.stop(Cause::PackVoltage)
        } else {
            self.phase_turn(p)
        }
    }

    #[tactic(auto, unfolding(crate::specs::Turns::charging_of))]
    fn charging(&self, silence: u16, p: Phase) -> Turn
        ensures { result ≡ charging_of self.now.settings self.now.readings self.now.cells silence p }
    {
        if limits::SILENCE <= silence {
            Turn::Enter(State::Error)
        } else if self.readings.wanted() {
            self.stops(p)
        } else {
            self.stop(Cause::Other)
        }
    }

    #[tactic(auto, unfolding(crate::specs::Turns::stopping_of, crate::specs::Turns::est_then))]
    fn stopping(&self, count: u16, acknowledged: bool, est: Option<Est>) -> Turn
        ensures { result ≡ stopping_of self.now.settings self.now.readings self.now.cells count acknowledged est }
    {
        if limits::CLOSING <= count {
            Turn::End
        } else {
            let est = match est {
                Some(bytes) => Some(bytes),
                None => self.fixed(Cause::Other),
            };
            Turn::On(State::Stopping { acknowledged, est })
        }
    }

    #[tactic(auto, unfolding(crate::specs::Turns::error_of))]
    fn error(count: u16) -> Turn
        ensures { result ≡ error_of count }
    {
        if limits::CLOSING <= count {
            Turn::End
        } else {
            Turn::On(State::Error)
        }
    }

    // What a tick makes of a state.
    #[tactic(auto, unfolding(crate::specs::Turns::turn_of))]
    pub fn turn(&self, state: State, count: u16, silence: u16) -> Turn
        ensures { result ≡ turn_of self.now.settings self.now.readings self.now.cells state count silence }
    {
        match state {
            State::Idle => Turn::On(State::Idle),
            State::Offered | State::Unverified | State::Parameters | State::Ready { .. } => {
                self.waiting(silence, state)
            }
            State::Charging(p) => self.charging(silence, p),
            State::Stopping { acknowledged, est } => self.stopping(count, acknowledged, est),
            State::Error => Self::error(count),
        }
    }
}
