// Which frames a tick sends to the station (01, "Session by tick", "Frames").
ghost use Rattle.std.specs.Prelude.{◌≡◌, [], ◌∷◌};
ghost use Rattle.session.specs.Frames.{frame_list, is_fifth, each5, parameters_frames, charging_frames, est_bytes, stopping_frames, frames_in, frames_of};

use crate::{ChargeFrames, Session};
use frames::Frame;
use session_by_tick::{Tick, Turn};
use session_frames::ToStation;
use session_states::limits;
use session_states::phases::Phase;
use session_states::states::{Est, State};

#[tactic(auto, unfolding(crate::specs::Frames::is_fifth))]
fn is_fifth(count: u16) -> bool
    ensures { result ≡ is_fifth count }
{
    count % 5 == 0
}

#[tactic(auto, unfolding(crate::specs::Frames::each5))]
fn one_each_5(count: u16, a: Frame) -> ChargeFrames
    ensures { frame_list result ≡ each5 count (a ∷ []) }
{
    if is_fifth(count) {
        ChargeFrames::One(a)
    } else {
        ChargeFrames::Nothing
    }
}

// What a tick sends to a station, in a state at its count.
#[derive(Clone, Copy)]
struct Sending<'a> {
    tick: &'a Tick,
    station: u8,
    count: u16,
}

impl Sending<'_> {
    fn to(&self) -> ToStation
        ensures { result ≡ record { settings = self.now.tick.now.settings; station = self.now.station } }
    {
        ToStation {
            settings: self.tick.settings,
            station: self.station,
        }
    }

    #[tactic(auto, unfolding(crate::specs::Frames::parameters_frames))]
    fn parameters(&self) -> ChargeFrames
        ensures { frame_list result
            ≡ parameters_frames self.now.tick.now.settings self.now.tick.now.readings self.now.station self.now.count }
    {
        if self.count == 0 {
            ChargeFrames::One(self.to().evm(self.tick.readings, true))
        } else if self.count % 10 == limits::FIRST_ECP {
            ChargeFrames::One(self.to().ecp())
        } else {
            ChargeFrames::Nothing
        }
    }

    #[tactic(auto, unfolding(crate::specs::Frames::charging_frames, crate::specs::Frames::each5))]
    fn charging(&self, p: Phase) -> ChargeFrames
        ensures { let t = self.now.tick.now in
            frame_list result ≡ charging_frames t.settings t.readings t.cells self.now.station self.now.count p }
    {
        let to = self.to();
        let cells = self.tick.cells;
        let ecr = to.ecr(cells, p);
        if is_fifth(self.count) {
            ChargeFrames::Three(ecr, to.ecs(self.tick.readings, cells), to.esm(cells))
        } else {
            ChargeFrames::One(ecr)
        }
    }

    #[tactic(auto, unfolding(crate::specs::Frames::est_bytes))]
    fn est(&self, acknowledged: bool, est: Option<Est>) -> Frame
        ensures { result ≡ est_bytes self.now.tick.now.settings self.now.station acknowledged est }
    {
        match est {
            None => self.to().est(0, 0, acknowledged),
            Some(bytes) => self.to().est(bytes.first, bytes.second, acknowledged),
        }
    }

    #[tactic(auto, unfolding(crate::specs::Frames::stopping_frames, crate::specs::Frames::each5))]
    fn stopping(&self, acknowledged: bool, est: Option<Est>) -> ChargeFrames
        ensures { let t = self.now.tick.now in
            frame_list result
            ≡ stopping_frames t.settings t.readings t.cells self.now.station self.now.count acknowledged est }
    {
        let f = self.est(acknowledged, est);
        if is_fifth(self.count) {
            ChargeFrames::Two(f, self.to().edm(self.tick.readings, self.tick.cells))
        } else {
            ChargeFrames::One(f)
        }
    }

    // The frames of a state at its count.
    #[tactic(auto, unfolding(crate::specs::Frames::frames_in))]
    fn in_state(&self, state: State) -> ChargeFrames
        ensures { let t = self.now.tick.now in
            frame_list result ≡ frames_in t.settings t.readings t.cells self.now.station self.now.count state }
    {
        let count = self.count;
        match state {
            State::Idle => ChargeFrames::Nothing,
            State::Offered => one_each_5(count, self.to().eim(true)),
            State::Unverified => one_each_5(count, self.to().evm(self.tick.readings, false)),
            State::Parameters => self.parameters(),
            State::Ready { accepted, .. } => one_each_5(count, self.to().erm(accepted)),
            State::Charging(p) => self.charging(p),
            State::Stopping { acknowledged, est } => self.stopping(acknowledged, est),
            State::Error => one_each_5(count, self.to().eem()),
        }
    }
}

// The frames of a tick: a farewell goes to the station that the session was with, and else those of the resulting
// state.
#[tactic(auto, unfolding(crate::specs::Frames::frames_of))]
pub fn sent(tick: &Tick, station: u8, t: Turn, s: Session) -> ChargeFrames
    ensures { frame_list result
        ≡ frames_of tick.now.settings tick.now.readings tick.now.cells station t s }
{
    if let Turn::Farewell = t {
        let to = ToStation {
            settings: tick.settings,
            station,
        };
        return ChargeFrames::One(to.eim(false));
    }
    let sending = Sending {
        tick,
        station: s.station,
        count: s.count,
    };
    sending.in_state(s.state)
}
