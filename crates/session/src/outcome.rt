// What an outcome makes of a session (01, "Session by message", and number 11).
ghost use Rattle.std.specs.Prelude.{◌≡◌};
ghost use Rattle.session.specs.Message.{session_after};

use crate::Session;
use session_by_message::Outcome;

impl Session {
    // The session after an outcome.
    #[tactic(auto, unfolding(crate::specs::Message::session_after))]
    pub fn after(self, source: u8, o: Outcome) -> Session
        ensures { result ≡ session_after source self o }
    {
        match o {
            Outcome::Refuse => self,
            Outcome::OutOfStep | Outcome::Heard => Session { silence: 0, ..self },
            Outcome::Open => Session::opened(source),
            Outcome::Enter(state) => self.begun(state),
            Outcome::Keep(state) => Session {
                silence: 0,
                state,
                ..self
            },
            Outcome::End => Session::idle(),
        }
    }
}
