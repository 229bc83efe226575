//! What a run came to, as JUnit XML.
#![tactic(auto)]

mod case;
mod count;
pub mod escape;
pub mod examples;
pub mod file;
pub mod junit;
pub mod laws;
mod output;
pub mod part;
pub mod path;
pub mod placed;
pub mod run;
pub mod seconds;
mod suite;
pub mod tally;
pub mod writing;
