//! Recorded schedules: the events of several workers, and the reader of their lines.
#![tactic(auto)]

pub mod examples;
pub mod fault;
pub mod laws;
mod line;
pub mod lines;
mod numeral;
pub mod reader;
mod written;
