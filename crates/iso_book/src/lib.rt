//! The book of a run: where its nodes and workers stand, the values that are lent to nobody, the
//! results, and the history of Enters, Leaves and Shuts, which in full is a run.
#![tactic(auto)]

pub mod book;
mod home;
pub mod laws;
pub mod receipt;
