// What the bench program answers to its input.
#![tactic(auto)]

pub mod answer;
mod buffers;
