//! Where the nodes and workers of a run stand: its events, which of them are refused and why, and
//! how results and bodies follow them.
#![tactic(auto)]

pub mod event;
pub mod following;
pub mod laws;
pub mod phase;
pub mod refused;
mod refusing;
pub mod standing;
