//! Values in the hands of one worker at a time: trays, and the vault that lends to them.
#![tactic(auto)]

mod counts;
pub mod examples;
mod kept;
mod key_set;
pub mod laws;
mod lent;
mod lockers;
mod moves;
mod slots;
mod starting;
pub mod tray;
pub mod vault;
