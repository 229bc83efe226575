//! What failed in a run, as commands that GitHub reads.
#![tactic(auto)]

pub mod errors;
mod escape;
pub mod examples;
pub mod laws;
mod part;
mod writing;
