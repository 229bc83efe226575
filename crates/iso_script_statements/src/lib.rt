//! Reads the bodies of scripts: expressions, statements and blocks.
#![tactic(auto)]

mod body_lengths;
pub mod display;
pub mod examples;
mod expression;
pub mod fault;
pub mod laws;
pub mod names;
pub mod parser;
pub mod reason;
pub mod seen_names;
pub mod simple;
mod statement;
pub mod unexpected;
pub mod unmet;
pub mod wanted;
