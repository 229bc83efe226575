//! What failed in a run, and how many tests came to what.
#![tactic(auto)]

pub mod blocked;
pub mod counts;
pub mod examples;
pub mod failures;
pub mod laws;
mod node;
pub mod text;
