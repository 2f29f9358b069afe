// Holds the controller from call to call, has its four entry points called with what the script says, and prints what
// they answered, sent and entered. This crate may not know how the input is read, how a line of it is written, nor any
// rule of the paper.
#![tactic(auto)]

pub mod held;
pub mod lines;
pub mod ticks;
