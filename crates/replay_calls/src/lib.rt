// The entry points' parts: what is lent cut to its first so many, a tick and a write of such a part, and the ticks
// counted that are accepted. This crate may not know what is printed, how a line is written, nor any rule of the paper.
#![tactic(auto)]

pub mod calls;
pub mod counts;
