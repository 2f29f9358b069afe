// The message table: one row a message with its PF, priority, length and, of a broadcast, its PS; the identifier's
// parts, made and taken apart; and which of the nine received messages a PF is. Frame building and frame checking read
// the table; the nine received PFs stand once more in a match, proved to agree with it, and no message number stands
// anywhere else. This crate may not know states, settings or what a message's data mean.
#![tactic(auto)]

pub mod identifier;
pub mod received;
pub mod table;
