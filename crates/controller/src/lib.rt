// The controller: one tick of all its blocks over the unit, and 1001h. A reader who asks what a tick does begins at specs/Tick.antt.
#![tactic(auto)]

pub mod error_register;
pub mod tick;
