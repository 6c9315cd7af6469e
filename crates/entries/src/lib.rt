// Whether a value that is offered to an entry may stand: in its own range, then in order with its chain. proofs/ has the laws of the whole
// configuration, computed over all of it.
#![tactic(auto)]

pub mod judging;
mod limits;
pub mod ranges;
pub mod types;
