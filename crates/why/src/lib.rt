// Why an output has its command: the rule, the signal that decided it, and for an error the trail back to where it began.
#![tactic(auto)]

pub mod asking;
mod seeing;
mod trailing;
pub mod types;
