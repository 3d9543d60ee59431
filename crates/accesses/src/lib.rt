// The latest accesses to each cell, and the candidates for arcs that they give.
#![tactic(auto)]

pub mod access;
pub mod history;
pub mod laws;
