//! The core of a run, as pure code: events of several workers on one map of resources, each
//! accepted or refused by name; and the isolation theorem, which is the contract of what it tells
//! of finished classes and tests.
#![tactic(auto)]

mod beside;
mod flat_map;
pub mod machine;
pub mod progress;
pub mod run_events;
