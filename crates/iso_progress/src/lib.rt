//! That no run of the state machine of `iso_isolation` is ever stuck: definitions in `specs/`, and
//! laws.
#![tactic(auto)]

pub mod examples;
pub mod laws;
