// Replaying recorded logs: the arcs to a core's next instruction, and steps that wait for them.
#![tactic(auto)]

pub mod answers;
pub mod group;
pub mod laws;
pub mod replay;
