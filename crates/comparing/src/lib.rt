// How many of a list of cases are answered as expected.
#![tactic(auto)]

pub mod cases;
