//! The state machine of a run over any suite and any bodies, and the isolation theorem over it:
//! definitions in `specs/`, and laws.
#![tactic(auto)]

pub mod examples;
pub mod laws;
