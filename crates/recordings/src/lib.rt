// What the calls of a recorder record is a recording of the run of its turns.
#![tactic(auto)]

pub mod laws;
