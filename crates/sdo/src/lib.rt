// Expedited SDO over the unit: one frame in, its word written and its reply out.
#![tactic(auto)]

mod data;
pub mod deciding;
pub mod serving;
pub mod types;
