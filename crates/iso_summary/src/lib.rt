//! What a run came to, as a text for people.
#![tactic(auto)]

pub mod again;
mod entry;
pub mod examples;
pub mod laws;
mod line;
pub mod located;
pub mod name;
mod part;
pub mod shown_line;
pub mod summary;
pub mod unseen;
pub mod word;
