//! What mends settings and worlds, as a text for people, and what settings come to.
#![tactic(auto)]

mod chosen;
pub mod examples;
mod explain;
mod keys;
pub mod laws;
pub mod listing;
mod note;
mod part;
mod place;
mod refusal;
pub mod settings;
mod told;
mod unknown;
mod value;
mod wanted;
mod warn;
pub mod warnings;
pub mod world;
