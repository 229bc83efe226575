//! What mends a script, as a text for people.
#![tactic(auto)]

mod bound;
pub mod examples;
pub mod explanation;
mod find;
mod first;
mod hints;
mod label;
pub mod laws;
mod meant;
mod met;
mod note;
mod other;
mod rule;
pub mod script;
mod spelling;
mod spot;
mod want;
