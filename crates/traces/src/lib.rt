// Traces: calls of a recorder one after another, and what they come to.
#![tactic(auto)]

pub mod laws;
