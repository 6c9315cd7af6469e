// Signals: what passes between the blocks of a tick, how a block reads one, and the two words that keep one from tick to tick.
#![tactic(auto)]

pub mod keeping;
pub mod reading;
pub mod signal;
