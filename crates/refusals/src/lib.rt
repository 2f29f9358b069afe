// What a received frame and a tick must pass before anything is done with them, on plain inputs (01, "Numbers
// returned"): of a frame the checks 3 to 8, which make the message in it, and who may speak of a charge (9); of a tick
// 14 to 16. What follows where all are passed stands above. This crate may not know controllers, what moves a session,
// or frames sent.
#![tactic(auto)]

pub mod frame;
pub mod tick;
