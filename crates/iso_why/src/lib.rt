//! Why each node of a plan has its mode and its locks.
#![tactic(auto)]

pub mod examples;
mod givers;
pub mod laws;
mod lines;
pub mod plan;
pub mod reach;
pub mod why;
