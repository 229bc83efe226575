//! The script reader: bytes to the tree of a script, or the first fault. It stands on the lexer and
//! on the reader of statements; here are marks, display texts, statics and fields, lifecycle
//! blocks, and the classes and tests that have them.
#![tactic(auto)]

mod block;
mod class;
mod context;
mod earlier_place;
pub mod examples;
pub mod explain;
mod head;
pub mod laws;
mod mark;
pub mod place;
pub mod reader;
mod test;
mod title;
mod variable;

/// The faults of scripts.
pub mod fault {
    pub use iso_script_statements::fault::{ScriptError, ScriptFault, ScriptFaultKind};
}
