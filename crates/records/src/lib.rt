// The records of a configuration image: taking one, walking them from the front, and looking a name up among them.
#![tactic(auto)]

pub mod data;
pub mod lookup;
pub mod rows;
pub mod taking;
pub mod types;
pub mod walking;
