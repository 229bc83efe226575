//! The command line of `jtap`: from its words to what they ask for.
#![tactic(auto)]

mod number;
mod options;
pub mod processors;
pub mod request;
pub mod shard;
mod written;
pub mod wrong_words;
