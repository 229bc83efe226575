//! When each body of a run began and ended, and on which worker: kept by a gate in a table that is
//! made before the run.
#![tactic(auto)]

mod cell;
pub mod gate;
pub mod laws;
mod moment;
mod table;
pub mod times;
