// What a log store holds, as text, and the numbers of a command line.
#![tactic(auto)]

mod faults;
mod lines;
pub mod listing;
pub mod words;
