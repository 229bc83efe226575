//! What of scripts is kept, from the paths, patterns and shard that were asked for.
#![tactic(auto)]

pub mod examples;
pub mod laws;
pub mod list;
mod named;
pub mod pattern;
pub mod pick;
pub mod plan;
pub mod shard;
mod turns;
pub mod wanted;
