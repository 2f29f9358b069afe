// The session after a tick's state change, and its counts moved on. A count is kept small by going back where the
// paper's tests cannot tell (crate session_states, `counts`), so that no session is too long for it.
ghost use Rattle.std.specs.Prelude.{◌≡◌};
ghost use Rattle.session.specs.Tick.{turned_by, waited_of, closing_of, advance_of};

use crate::Session;
use session_by_tick::Turn;
use session_states::states::State;
use session_states::{counts, limits};

impl Session {
    // The state change of a tick.
    #[tactic(auto, unfolding(crate::specs::Tick::turned_by))]
    pub fn turned(self, t: Turn) -> Session
        ensures { result ≡ turned_by self t }
    {
        match t {
            Turn::On(state) => Session { state, ..self },
            Turn::Enter(state) => self.begun(state),
            Turn::Farewell | Turn::End => Session::idle(),
        }
    }

    // A tick of Offered to Charging: silence grows with the count.
    #[tactic(auto, unfolding(crate::specs::Tick::waited_of))]
    fn waited(self, count: u16, state: State) -> Session
        ensures { result ≡ waited_of self count state }
    {
        Session {
            silence: counts::next_up_to(limits::SILENCE, self.silence),
            count,
            state,
            ..self
        }
    }

    // A tick of Stopping or Error.
    #[tactic(auto, unfolding(crate::specs::Tick::closing_of))]
    fn closing(self) -> Session
        ensures { result ≡ closing_of self self.state }
    {
        Session {
            count: counts::next_up_to(limits::CLOSING, self.count),
            ..self
        }
    }

    // The counts moved on.
    #[tactic(auto, unfolding(crate::specs::Tick::advance_of, crate::specs::Tick::advance_in))]
    pub fn advanced(self) -> Session
        ensures { result ≡ advance_of self }
    {
        let state = self.state;
        let fifth = counts::next_each_five(self.count);
        match state {
            State::Idle => self,
            State::Offered | State::Unverified | State::Ready { .. } => self.waited(fifth, state),
            State::Parameters => self.waited(counts::next_ecp(self.count), state),
            State::Charging(p) => self.waited(fifth, State::Charging(p.aged())),
            State::Stopping { .. } | State::Error => self.closing(),
        }
    }
}
