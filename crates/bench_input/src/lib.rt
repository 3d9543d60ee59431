// The description of a session as text: decimal numbers, separated by white space.
#![tactic(auto)]

pub mod errors;
pub mod input;
pub mod laws;
mod numbers;
pub mod reading;
