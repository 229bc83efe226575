//! The table of hints: the first row that fits a place is told, so what says more stands first.
pub(crate) mod annotations;
pub(crate) mod beginnings;
pub(crate) mod calls;
pub(crate) mod control;
pub(crate) mod ends;
pub(crate) mod forms;
pub(crate) mod heads;
pub(crate) mod members;
pub(crate) mod methods;
pub(crate) mod modifiers;
pub(crate) mod operators;
pub(crate) mod parentheses;
pub(crate) mod statements;
pub(crate) mod symbols;

/// A pattern, the word that it speaks of, the word at the place, and what is told.
pub(crate) type Row = (
    crate::pattern::Pattern,
    &'static str,
    &'static str,
    &'static str,
);
