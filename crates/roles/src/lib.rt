// What is held at a slot, told by one number: its type and range, its neighbours in a chain, and its word at start.
#![tactic(auto)]

pub mod start;
pub mod telling;
pub mod types;
pub mod widths;
