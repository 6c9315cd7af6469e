// The object dictionary: what a name stands for, and where the words of each object begin in a unit. The table of names is specs/Rows.antt.
#![tactic(auto)]

pub mod naming;
pub mod objects;
pub mod slots;
pub mod types;
pub mod words;
