// What a charge message of the session's station comes to in each state (01, "Session by message"): an outcome a state
// and message, a line each, read against the paper, and the yes rule of CMP. This crate may not know addresses,
// silence, ticks or frames; that a frame has gone out it tells by the state's count.
#![tactic(auto)]

ghost use Rattle.std.specs.Prelude.{◌≡◌};
ghost use Rattle.numbers.specs.Numbers.{answered};
ghost use Rattle.session_by_message.specs.Message.{outcome_number};

use numbers::Refusal;
use session_states::states::State;

pub mod message;
pub mod offer;

// What a charge message comes to.
#[derive(Clone, Copy)]
pub enum Outcome {
    // 11, and nothing changes.
    Refuse,
    // 11, and the silence count returns to 0.
    OutOfStep,
    // A session opens with the message's station.
    Open,
    // Taken, and nothing but the silence count changes.
    Heard,
    // Taken: the state begins, its count 0.
    Enter(State),
    // Taken: the state with a mark more, its count going on.
    Keep(State),
    // Taken: the session ends to Idle.
    End,
}

impl Outcome {
    // Taken, or 11: not taken in this state.
    pub fn answer(self) -> Result<(), Refusal>
        ensures { answered result ≡ outcome_number self }
    {
        match self {
            Outcome::Refuse | Outcome::OutOfStep => Err(Refusal::NotInThisState),
            Outcome::Open | Outcome::Heard | Outcome::Enter(_) | Outcome::Keep(_) | Outcome::End =>
                { Ok(()) }
        }
    }
}
