//! A run on one thread: every class and test of a plan, depth first, over values that come home as
//! they were.
#![tactic(auto)]

pub mod run;
