//! The lexer and the script reader.
mod bodies;
mod classes;
mod made;
mod marks;
mod scripts;
mod tokens;
