// The states of a session (01, "Session by message").
ghost use Rattle.std.specs.Prelude.{◌≡◌};
ghost use Rattle.session_states.specs.States.{is_idle};

use crate::phases::Phase;
use units::TenthAmps;

// EST bytes 1 and 2.
#[derive(Clone, Copy)]
pub struct Est {
    pub first: u8,
    pub second: u8,
}

#[derive(Clone, Copy)]
pub enum State {
    Idle,
    Offered,
    Unverified,
    Parameters,
    // Whether the last CMP was accepted, and the station's maximum current.
    Ready {
        accepted: bool,
        maximum: TenthAmps,
    },
    Charging(Phase),
    // EST's bytes are fixed at Stopping's first tick, and awaited until then where a message entered Stopping.
    Stopping {
        acknowledged: bool,
        est: Option<Est>,
    },
    Error,
}

impl State {
    // No session.
    #[tactic(auto, unfolding(crate::specs::States::is_idle))]
    pub fn is_idle(self) -> bool
        ensures { result ≡ is_idle self }
    {
        matches!(self, State::Idle)
    }
}
