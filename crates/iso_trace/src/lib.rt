//! A run as a trace that Chrome and Perfetto show.
#![tactic(auto)]

mod body;
pub mod names;
mod part;
pub mod trace;
mod verdict;
mod wait;
mod writing;
