//! The bodies of classes and tests: what one worker does between entering a node and leaving it.
#![tactic(auto)]

mod beginning;
mod blocks;
pub mod body;
mod body_run;
pub mod done;
mod due_blocks;
mod empty_blocks;
mod endings;
mod entry;
pub mod frame;
pub mod gate;
mod job;
mod kept;
pub mod kind;
mod names;
mod opening;
mod origin;
pub mod result_examples;
pub mod results;
mod verdict;
pub mod view;
