// The records of a log: their bytes, writing one at its place, and reading one after another.
#![tactic(auto)]

pub mod faults;
pub mod format;
pub mod reading;
pub mod settings;
pub mod store;
pub mod writing;
