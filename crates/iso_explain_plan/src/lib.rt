//! What mends the faults of plans and schedules, as texts for people.
#![tactic(auto)]

mod clash;
mod double;
pub mod error;
pub mod examples;
mod key;
mod largest;
pub mod laws;
mod line;
mod meant;
mod note;
mod part;
pub mod plan;
mod reason;
mod refusal;
pub mod refused;
pub mod schedule;
mod size;
pub mod unfinished;
mod unselected;
