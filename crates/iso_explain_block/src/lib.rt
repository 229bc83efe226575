//! What mends a statement that a fault ended, in words.
#![tactic(auto)]

mod block;
pub mod examples;
mod expression;
pub mod fault;
mod fixed;
mod kind;
pub mod laws;
mod lets;
mod line;
mod mark;
mod message;
mod missing;
mod name;
mod names_in_blocks;
mod operation;
mod rule;
mod statement;
mod variable;
