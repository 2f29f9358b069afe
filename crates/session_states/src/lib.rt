// The states of a session and the phases of a charge, as values, with the limits that the paper sets to them, and what
// a tick makes of a phase (01, "Session by message", "Session by tick"). This crate may not know stations, messages,
// readings or frames, nor what moves a session from one state to the next: it is told whether a cell is at its maximum,
// and says whether the charge goes on.
#![tactic(auto)]

pub mod counts;
pub mod limits;
pub mod phases;
pub mod states;
