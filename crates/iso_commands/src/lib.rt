//! Commands as a shell reads them.
#![tactic(auto)]

pub mod examples;
mod part;
pub mod replay;
