//! What mends a mistake: near words, hints, the picture of a line, and what settings come to.
#![tactic(auto)]

mod byte;
pub mod examples;
pub mod hint;
pub mod hint_examples;
pub mod key;
pub mod laws;
mod near_key;
pub mod nearest;
mod pattern;
pub mod picture;
pub mod picture_examples;
pub mod place;
pub mod position;
mod row;
mod scan;
pub mod setting;
pub mod settings;
pub mod settings_examples;
mod table;
mod token;
mod words;
