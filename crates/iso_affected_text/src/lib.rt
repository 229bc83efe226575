//! What a change can alter, as text: which tests and classes, and why.
#![tactic(auto)]

pub mod change;
pub mod changed_paths;
pub mod examples;
pub mod laws;
mod parts;
pub mod row;
pub mod rows;
mod spots;
pub mod text;
mod word;

pub use iso_places::paths;
