// What the programs do, over any world: a `main` is one call of a command.
#![tactic(auto)]

pub mod answering;
pub mod inspection;
pub mod ran;
