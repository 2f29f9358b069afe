// A charge session: what a message of its station and what a tick make of it, and the frames that a tick sends to its
// station (01, "Session by message", "Session by tick"). A library on values: it may not know settings bytes, addresses
// of others, queries, broadcasts or buffers.
#![tactic(auto)]

ghost use Rattle.std.specs.Prelude.{◌≡◌};
ghost use Rattle.session.specs.Session.{idle_session, begun, opened};
ghost use Rattle.session.specs.Message.{told, message_of};
ghost use Rattle.session.specs.Frames.{frame_list};
ghost use Rattle.session.specs.Tick.{tick_of, sent_of};

use charge_messages::ChargeMessage;
use frames::Frame;
use numbers::Refusal;
use session_by_tick::Tick;
use session_states::states::State;
use settings::Settings;

pub mod counts;
pub mod due;
pub mod outcome;

// The state with its count, the silence count, and the station that the session is with. In Idle the three numbers are
// 0.
#[derive(Clone, Copy)]
pub struct Session {
    pub station: u8,
    pub silence: u16,
    pub count: u16,
    pub state: State,
}

// What a message comes to: whether it is taken, and the next session, also where it is not (11 may return silence to 0);
// so the two stand side by side. A session goes in and comes back by value, as the paper's form has it.
#[derive(Clone, Copy)]
pub struct Taken {
    pub answer: Result<(), Refusal>,
    pub session: Session,
}

// The frames of a tick to the station: at most three. An enum and no `ArrayVec`, which cannot be copied: what a tick
// comes to is a value, as a session is.
#[derive(Clone, Copy)]
pub enum ChargeFrames {
    Nothing,
    One(Frame),
    Two(Frame, Frame),
    Three(Frame, Frame, Frame),
}

// What a tick comes to: the next session, and the frames it sends.
#[derive(Clone, Copy)]
pub struct Ticked {
    pub session: Session,
    pub frames: ChargeFrames,
}

impl Session {
    // No session.
    pub fn idle() -> Session
        ensures { result ≡ idle_session }
    {
        Session {
            station: 0,
            silence: 0,
            count: 0,
            state: State::Idle,
        }
    }

    // A session just opened with a station.
    pub fn opened(source: u8) -> Session
        ensures { result ≡ opened source }
    {
        Session {
            station: source,
            silence: 0,
            count: 0,
            state: State::Offered,
        }
    }

    // A state begins: its count is 0, and so is silence.
    pub fn begun(self, state: State) -> Session
        ensures { result ≡ begun self state }
    {
        Session {
            silence: 0,
            count: 0,
            state,
            ..self
        }
    }

    // A charge message of the session's station; in Idle, of a listed station.
    #[tactic(auto, unfolding(crate::specs::Message::message_of, crate::specs::Message::applied_of))]
    pub fn message(self, x: Settings, source: u8, m: ChargeMessage) -> Taken
        ensures { told result ≡ message_of x source self m }
    {
        let o = session_by_message::message::outcome(x, self.state, self.count, m);
        Taken {
            answer: o.answer(),
            session: self.after(source, o),
        }
    }

    // An accepted tick: state changes first, then the frames of the resulting state, then counts.
    #[tactic(auto, unfolding(crate::specs::Tick::tick_of, crate::specs::Tick::sent_of, crate::specs::Tick::turn_in))]
    pub fn tick(self, tick: &Tick) -> Ticked
        ensures next { result.session ≡ tick_of tick.now.settings tick.now.readings tick.now.cells self }
        ensures sent { frame_list result.frames ≡ sent_of tick.now.settings tick.now.readings tick.now.cells self }
    {
        let t = tick.turn(self.state, self.count, self.silence);
        let turned = self.turned(t);
        Ticked {
            session: turned.advanced(),
            frames: due::sent(tick, self.station, t, turned),
        }
    }
}
