//! What a change of scripts or of starting values can alter: which nodes of a new suite agree with
//! their namesakes in the old one.
#![tactic(auto)]

pub mod affected;
pub mod counts;
pub mod difference;
pub mod firsts;
pub mod laws;
pub mod listed;
mod namesake;
pub mod own;
pub mod properties;
pub mod starts;
pub mod told;
