//! Texts that are written to a sink.
#![tactic(auto)]

mod blocks;
pub mod buffered;
pub mod escape;
pub mod examples;
pub mod fault;
pub mod laws;
pub mod memory;
pub mod ok;
pub mod output;
mod places;
pub mod plan;
mod points;
pub mod printer;
pub mod report;
pub mod sink;
pub mod text;
