//! The keys of a plan, with who takes them, and the tests that wait for one another.
#![tactic(auto)]

mod chains;
pub mod conflicts;
pub mod examples;
pub mod laws;
mod longest;
mod takers;
pub mod tests;
