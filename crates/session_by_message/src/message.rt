// What a charge message comes to, state by state (01, "Session by message").
ghost use Rattle.std.specs.Prelude.{◌≡◌};
ghost use Rattle.session_by_message.specs.Message.{ready_of, crm_in_ready, stop_by_cst, end_by_cem, in_idle, in_offered, in_unverified, in_parameters, in_ready, in_charging, in_stopping, in_error, outcome_of};

use crate::{Outcome, offer};
use charge_messages::{ChargeMessage, Offer};
use session_states::states::{Est, State};
use session_states::{limits, phases};
use settings::Settings;
use units::TenthAmps;

// A CMP, the entering one too, sets yes or no and returns the count to 0.
#[tactic(auto, unfolding(crate::specs::Message::ready_of))]
fn ready(x: Settings, o: Offer) -> Outcome
    ensures { result ≡ ready_of x o }
{
    let accepted = offer::accepted(x, o);
    let maximum = offer::station_maximum(o);
    Outcome::Enter(State::Ready { accepted, maximum })
}

// CST, either value, from Offered to Charging enters Stopping marked acknowledged.
fn stop_by_cst() -> Outcome
    ensures { result ≡ stop_by_cst }
{
    Outcome::Enter(State::Stopping {
        acknowledged: true,
        est: None,
    })
}

// CEM in any session ends it to Idle.
fn end_by_cem() -> Outcome
    ensures { result ≡ end_by_cem }
{
    Outcome::End
}

#[tactic(auto, unfolding(crate::specs::Message::in_idle))]
fn in_idle(m: ChargeMessage) -> Outcome
    ensures { result ≡ in_idle m }
{
    match m {
        ChargeMessage::Cim => Outcome::Open,
        _ => Outcome::Refuse,
    }
}

#[tactic(auto, unfolding(crate::specs::Message::in_offered))]
fn in_offered(count: u16, m: ChargeMessage) -> Outcome
    ensures { result ≡ in_offered count m }
{
    match m {
        ChargeMessage::Cim => Outcome::Heard,
        ChargeMessage::Cvm(verified) => {
            if 0 < count {
                if verified {
                    Outcome::Enter(State::Parameters)
                } else {
                    Outcome::Enter(State::Unverified)
                }
            } else {
                Outcome::OutOfStep
            }
        }
        ChargeMessage::Cst(_) => stop_by_cst(),
        ChargeMessage::Cem => end_by_cem(),
        _ => Outcome::OutOfStep,
    }
}

#[tactic(auto, unfolding(crate::specs::Message::in_unverified))]
fn in_unverified(m: ChargeMessage) -> Outcome
    ensures { result ≡ in_unverified m }
{
    match m {
        ChargeMessage::Cim => Outcome::Refuse,
        ChargeMessage::Cvm(verified) => {
            if verified {
                Outcome::Enter(State::Parameters)
            } else {
                Outcome::Heard
            }
        }
        ChargeMessage::Cst(_) => stop_by_cst(),
        ChargeMessage::Cem => end_by_cem(),
        _ => Outcome::OutOfStep,
    }
}

#[tactic(auto, unfolding(crate::specs::Message::in_parameters))]
fn in_parameters(x: Settings, count: u16, m: ChargeMessage) -> Outcome
    ensures { result ≡ in_parameters x count m }
{
    match m {
        ChargeMessage::Cim => Outcome::Refuse,
        ChargeMessage::Cvm(verified) => {
            if verified {
                Outcome::Heard
            } else {
                Outcome::OutOfStep
            }
        }
        ChargeMessage::Cmp(o) => {
            if limits::FIRST_ECP < count {
                ready(x, o)
            } else {
                Outcome::OutOfStep
            }
        }
        ChargeMessage::Cst(_) => stop_by_cst(),
        ChargeMessage::Cem => end_by_cem(),
        _ => Outcome::OutOfStep,
    }
}

#[tactic(auto, unfolding(crate::specs::Message::crm_in_ready))]
fn crm_in_ready(x: Settings, accepted: bool, maximum: TenthAmps, count: u16, go: bool) -> Outcome
    ensures { result ≡ crm_in_ready x accepted maximum count go }
{
    if accepted & (0 < count) {
        if go {
            Outcome::Enter(State::Charging(phases::start_phase(x.limits.current, maximum)))
        } else {
            Outcome::Heard
        }
    } else {
        Outcome::OutOfStep
    }
}

#[tactic(auto, unfolding(crate::specs::Message::in_ready))]
fn in_ready(
    x: Settings,
    accepted: bool,
    maximum: TenthAmps,
    count: u16,
    m: ChargeMessage,
) -> Outcome
    ensures { result ≡ in_ready x accepted maximum count m }
{
    match m {
        ChargeMessage::Cim => Outcome::Refuse,
        ChargeMessage::Cmp(o) => ready(x, o),
        ChargeMessage::Crm(go) => crm_in_ready(x, accepted, maximum, count, go),
        ChargeMessage::Cst(_) => stop_by_cst(),
        ChargeMessage::Cem => end_by_cem(),
        _ => Outcome::OutOfStep,
    }
}

#[tactic(auto, unfolding(crate::specs::Message::in_charging))]
fn in_charging(m: ChargeMessage) -> Outcome
    ensures { result ≡ in_charging m }
{
    match m {
        ChargeMessage::Ccs(goes_on) => {
            if goes_on {
                Outcome::Heard
            } else {
                Outcome::Enter(State::Stopping {
                    acknowledged: false,
                    est: None,
                })
            }
        }
        ChargeMessage::Cst(_) => stop_by_cst(),
        ChargeMessage::Cem => end_by_cem(),
        _ => Outcome::Refuse,
    }
}

#[tactic(auto, unfolding(crate::specs::Message::in_stopping))]
fn in_stopping(est: Option<Est>, count: u16, m: ChargeMessage) -> Outcome
    ensures { result ≡ in_stopping est count m }
{
    match m {
        ChargeMessage::Cst(done) => {
            if done {
                if 0 < count {
                    Outcome::End
                } else {
                    Outcome::Refuse
                }
            } else {
                Outcome::Keep(State::Stopping {
                    acknowledged: true,
                    est,
                })
            }
        }
        ChargeMessage::Cem => end_by_cem(),
        _ => Outcome::Refuse,
    }
}

#[tactic(auto, unfolding(crate::specs::Message::in_error))]
fn in_error(m: ChargeMessage) -> Outcome
    ensures { result ≡ in_error m }
{
    match m {
        ChargeMessage::Cem => end_by_cem(),
        _ => Outcome::Refuse,
    }
}

// What a charge message of the session's station (in Idle: of a listed one) comes to.
#[tactic(auto, unfolding(crate::specs::Message::outcome_of))]
pub fn outcome(x: Settings, state: State, count: u16, m: ChargeMessage) -> Outcome
    ensures { result ≡ outcome_of x state count m }
{
    match state {
        State::Idle => in_idle(m),
        State::Offered => in_offered(count, m),
        State::Unverified => in_unverified(m),
        State::Parameters => in_parameters(x, count, m),
        State::Ready { accepted, maximum } => in_ready(x, accepted, maximum, count, m),
        State::Charging(_) => in_charging(m),
        State::Stopping { est, .. } => in_stopping(est, count, m),
        State::Error => in_error(m),
    }
}
