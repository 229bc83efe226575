//! What a run tells besides its report.
#![tactic(auto)]

pub mod examples;
mod excerpts;
mod explained;
pub mod laws;
mod lines;
mod located;
mod nodes;
mod page;
mod places;
mod summary;
mod table;
pub mod tells;
mod told;
mod verdict;
pub mod watched;
pub mod written;
