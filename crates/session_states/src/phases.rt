// The phases of a charge, Drive, Rest and Hold, and what a tick makes of each (01, "Session by tick").
ghost use Rattle.std.specs.Prelude.{◌≡◌};
ghost use Rattle.session_states.specs.Phases.{start_phase, drive_rules, hold_rules, after_rest, phase_after, aged_of};

use crate::{counts, limits};
use std::ops::ControlFlow;
use units::TenthAmps;

// Request, cycle and time stay fields of their phase, as the paper's form has them (Drive with request and cycle, Rest,
// Hold), and parameters of the rules, which a Drive and the end of a Rest share.
#[derive(Clone, Copy)]
pub enum Phase {
    // The request R, which of the six Drives it is, and the ticks it has had.
    Drive {
        request: TenthAmps,
        cycle: u8,
        time: u16,
    },
    // The Drive that it follows, and the ticks it has had.
    Rest {
        request: TenthAmps,
        cycle: u8,
        time: u16,
    },
    Hold {
        time: u16,
    },
}

// Why a charge stops: what EST byte 1 tells apart.
#[derive(Clone, Copy, PartialEq, Eq)]
pub enum Cause {
    PackVoltage,
    HoldCell,
    Other,
}

// What a tick makes of a phase: the charge goes on in a phase, or breaks off for a cause.
pub type PhaseAfter = ControlFlow<Cause, Phase>;

// The first phase: the request is the smaller of the two maxima, and under the least it holds.
#[tactic(auto, unfolding(crate::specs::Phases::start_phase))]
pub fn start_phase(maximum: TenthAmps, station: TenthAmps) -> Phase
    ensures { result ≡ start_phase maximum station }
{
    let request = maximum.lesser(station);
    if request < limits::LEAST_REQUEST {
        Phase::Hold { time: 0 }
    } else {
        Phase::Drive {
            request,
            cycle: 1,
            time: 0,
        }
    }
}

#[tactic(auto, unfolding(crate::specs::Phases::drive_rules))]
fn drive_rules(request: TenthAmps, cycle: u8, time: u16, cell: bool) -> PhaseAfter
    ensures { result ≡ drive_rules request cycle time cell }
{
    if limits::DRIVE <= time {
        ControlFlow::Break(Cause::Other)
    } else if cell {
        ControlFlow::Continue(Phase::Rest {
            request,
            cycle,
            time: 0,
        })
    } else {
        ControlFlow::Continue(Phase::Drive {
            request,
            cycle,
            time,
        })
    }
}

#[tactic(auto, unfolding(crate::specs::Phases::hold_rules))]
fn hold_rules(time: u16, cell: bool) -> PhaseAfter
    ensures { result ≡ hold_rules time cell }
{
    if limits::HOLD <= time {
        ControlFlow::Break(Cause::Other)
    } else if cell {
        ControlFlow::Break(Cause::HoldCell)
    } else {
        ControlFlow::Continue(Phase::Hold { time })
    }
}

// The phase that follows a Rest, under its own rules from its first tick.
#[tactic(auto, unfolding(crate::specs::Phases::after_rest))]
fn after_rest(request: TenthAmps, cycle: u8, cell: bool) -> PhaseAfter
    ensures { result ≡ after_rest request cycle cell }
{
    let halved = request.halved();
    if halved < limits::LEAST_REQUEST {
        hold_rules(0, cell)
    } else if limits::DRIVES <= cycle {
        hold_rules(0, cell)
    } else {
        drive_rules(halved, cycle + 1, 0, cell)
    }
}

impl Phase {
    // The phase after this tick's rules: time limits first, then the cell rule.
    #[tactic(auto, unfolding(crate::specs::Phases::phase_after))]
    pub fn after_tick(self, cell: bool) -> PhaseAfter
        ensures { result ≡ phase_after self cell }
    {
        match self {
            Phase::Drive {
                request,
                cycle,
                time,
            } => drive_rules(request, cycle, time, cell),
            Phase::Rest {
                request,
                cycle,
                time,
            } => {
                if limits::REST <= time {
                    after_rest(request, cycle, cell)
                } else {
                    ControlFlow::Continue(Phase::Rest {
                        request,
                        cycle,
                        time,
                    })
                }
            }
            Phase::Hold { time } => hold_rules(time, cell),
        }
    }

    // One tick older.
    #[tactic(auto, unfolding(crate::specs::Phases::aged_of))]
    pub fn aged(self) -> Phase
        ensures { result ≡ aged_of self }
    {
        match self {
            Phase::Drive {
                request,
                cycle,
                time,
            } => Phase::Drive {
                request,
                cycle,
                time: counts::next_up_to(limits::DRIVE, time),
            },
            Phase::Rest {
                request,
                cycle,
                time,
            } => Phase::Rest {
                request,
                cycle,
                time: counts::next_up_to(limits::REST, time),
            },
            Phase::Hold { time } => Phase::Hold {
                time: counts::next_up_to(limits::HOLD, time),
            },
        }
    }
}
