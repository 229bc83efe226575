//! A resource's value with the marks to which it can go back.
#![tactic(auto)]

pub mod held;
mod layers;
mod places;
mod value;
