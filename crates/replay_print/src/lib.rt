// What a replay prints: the output and its buffer, text, numbers in decimal and bytes in hex; and the lines of answers,
// of frames as candump writes them, and of a session's standing. This crate may not know any controller, why a frame
// was sent, nor any rule of the paper.
#![tactic(auto)]

pub mod answers;
pub mod frames;
pub mod numerals;
pub mod out;
pub mod standings;

// A buffer whose first bytes are printed, as callers hold it; here it is asked for by slices alone.
pub type Buffer = [u8; 4096];
