// Numbers and their bytes, low byte first; bytes put into a lent buffer.
#![tactic(auto)]

pub mod little;
pub mod putting;
