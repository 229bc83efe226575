//! The plan of a run: nodes in preorder, with their class chains, execution modes and locks.
#![tactic(auto)]

mod chains;
mod child_lists;
mod children_marks;
mod columns;
pub mod conflict;
pub mod examples;
pub mod fault;
pub mod held_nodes;
mod isolated;
mod kept_nodes;
mod key_groups;
mod keys;
pub mod laws;
pub mod lock;
mod locking;
mod locks;
mod merged;
mod modes;
mod names;
mod node_set;
mod nodes;
mod outermost;
pub mod overview;
mod paths;
pub mod plan;
mod repeated;
mod rights;
pub mod row;
mod same;
mod tree;
