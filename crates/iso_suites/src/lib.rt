//! The suites of scripts and plans, and the isolation theorem over them. Its functions do nothing:
//! their contracts are laws.
#![tactic(auto)]

pub mod examples;
pub mod laws;
