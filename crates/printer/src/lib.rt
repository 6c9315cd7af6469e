// The session printer: what a line does to the unit, and what it prints.
#![tactic(auto)]

pub mod answer_lines;
pub mod answering;
pub mod printing;
pub mod reading;
