//! The slowest tests and classes of a run, as a text for people.
#![tactic(auto)]

pub mod durations;
pub mod examples;
pub mod laws;
mod line;
mod part;
mod seconds;
mod tally;
pub mod text;
mod times;
