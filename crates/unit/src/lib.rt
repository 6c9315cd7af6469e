// The unit as the blocks of a tick use it: its words by their names, and the signals that it keeps.
#![tactic(auto)]

pub mod laying;
pub mod pairs;
pub mod rows;
pub mod sources;
pub mod words;
