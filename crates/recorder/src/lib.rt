// Records the turns of cores over shared cells.
#![tactic(auto)]

mod arcs;
pub mod ledger;
pub mod recording;
pub mod rules;
