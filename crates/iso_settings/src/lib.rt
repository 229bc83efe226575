//! What steers a run: settings by JUnit 5's configuration parameters, and the values that resources
//! start with. Both are TOML.
#![tactic(auto)]

pub mod examples;
pub mod fault;
pub mod find;
mod rules;
pub mod settings;
mod starts;
mod table;
pub mod world;
