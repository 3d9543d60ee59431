// All logs of a session: reading them, what an accepted session is, and writing them out.
#![tactic(auto)]

pub mod round_trip;
pub mod session;
pub mod write_out;
