//! The places of a plan's nodes in its scripts, and the lines there.
#![tactic(auto)]

pub mod end;
pub mod examples;
pub mod fault;
pub mod laws;
pub mod lines;
pub mod locate;
pub mod paths;
pub mod site;
mod table;
