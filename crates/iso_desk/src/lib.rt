//! The table of a scheduler: where each node of a run stands, the lines of those that are to be
//! tried, and whom a change calls.
#![tactic(auto)]

pub mod count;
pub mod crew;
mod ends;
pub mod line;
mod line_ends;
pub mod marks;
mod offer;
pub mod place;
pub mod scene;
pub mod table;
