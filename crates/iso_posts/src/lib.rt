//! Work-stealing deques for the workers of a pool, of the numbers of nodes that wait for a worker.
#![tactic(auto)]

pub mod owner;
pub mod posts;
mod rule;
pub mod thief;
