// Reducers: which orderings between instructions of different cores are already known.
#![tactic(auto)]

pub mod exact;
pub mod interface;
pub mod keep_all;
mod known;
pub mod laws;
pub mod pairwise;
mod rows;
