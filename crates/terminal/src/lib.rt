// What the programs share at a terminal: a line as it comes in, an argument that is there or not, bytes that go out.
#![tactic(auto)]

pub mod arguments;
pub mod line;
pub mod writing;
