//! The lexer of the script language: bytes to tokens, each with its position.
#![tactic(auto)]

mod begin;
mod cursor;
pub mod examples;
mod gap;
pub mod laws;
pub mod lexer;
mod scan;
pub mod symbol;
pub mod text;
pub mod token;
pub mod word;
