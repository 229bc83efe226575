//! The block interpreter: a block of the test language, run step by step over any resources.
#![tactic(auto)]

pub mod block;
mod expression;
mod functions;
mod interrupt;
mod operators;
pub mod run;
pub mod run_block;
mod value;
