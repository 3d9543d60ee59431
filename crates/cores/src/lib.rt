// Cores, what they request, and how a request acts on the cells.
#![tactic(auto)]

pub mod acting;
pub mod interface;
pub mod laws;
pub mod register;
pub mod script;
mod text;
