// What a command can reach: its arguments, files, the input and the two outputs.
#![tactic(auto)]

pub mod outside;
pub mod world;
