//! What a run tells of its workers, waits and chains, as a text for people.
#![tactic(auto)]

mod chains;
pub mod examples;
pub mod figures;
pub mod measures;
mod modes;
mod part;
mod serial;
mod share;
mod tally;
pub mod text;
mod time;
mod totals;
mod writing;
