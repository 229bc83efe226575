//! The plan as text, with the place of each class and test.
#![tactic(auto)]

pub mod examples;
mod place;
pub mod plan;
