// The text of a recorded and replayed run.
#![tactic(auto)]

mod lines;
pub mod listing;
