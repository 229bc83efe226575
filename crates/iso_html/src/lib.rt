//! What a run came to, as a page to look at.
#![tactic(auto)]

pub mod again;
mod axis;
mod bars;
mod drawing;
pub mod examples;
mod figures;
mod group;
mod head;
mod lanes;
pub mod laws;
mod lists;
pub mod measured;
mod mode;
mod node;
pub mod page;
mod part;
mod picture;
pub mod quote;
mod section;
mod shape;
mod sign;
mod slowest;
mod style;
mod takers;
mod tree;
mod usage;
mod word;
mod writing;
