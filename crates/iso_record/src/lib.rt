//! Records of runs: the events of a run as a schedule has them, and their lines.
#![tactic(auto)]

pub mod examples;
pub mod laws;
pub mod record;
mod recording;
pub mod serial;
pub mod text;
