//! The critical bodies of a run: those on the longest way back from its end, each after the one
//! that it had to wait for.
#![tactic(auto)]

pub mod body;
pub mod critical;
pub mod examples;
mod holders;
pub mod laws;
mod marks;
mod needs;
mod order;
mod path;
mod under;
