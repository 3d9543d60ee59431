// A whole session: turns are recorded, the logs opened again, and the replay stepped and run to its end.
#![tactic(auto)]

pub mod buffers;
pub mod session;
