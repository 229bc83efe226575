//! What each node of a run waited for, worked out from the plan and the times of its bodies.
#![tactic(auto)]

pub mod all;
pub mod examples;
mod firsts;
pub mod key;
mod known_keys;
pub mod laws;
mod order;
mod ready;
mod rivals;
mod sight;
pub mod stay;
mod sums;
mod told;
pub mod wait;
pub mod waits;
mod within;
