//! Why a fault is answered.
ghost use Rattle.std.specs.Prelude.{◌≡◌};
ghost use Rattle.iso_script_statements.specs.Reasons.{most};

use crate::unmet::Unmet;
use iso_model::limits::{BODY_DEPTH, CLASS_DEPTH, FILE_BYTES, KEY_BYTES, OPERANDS, PARENTHESES};

/// Why a fault is answered.
#[derive(Clone, Copy)]
pub enum Reason<'a> {
    /// What its kind says, and no more.
    Kind,
    /// Something else is wanted than what is next.
    Unmet(Unmet<'a>),
    /// What is next would go beyond this limit.
    Beyond(Limit),
}

/// What is limited in number.
#[derive(Clone, Copy, Debug, PartialEq, Eq)]
pub enum Limit {
    /// Classes in one another.
    Classes,
    /// Bodies in one another.
    Bodies,
    /// Open parentheses.
    Parentheses,
    /// Operands of a chain.
    Operands,
    /// Bytes of a key.
    KeyBytes,
    /// Bytes of a script.
    ScriptBytes,
}

impl Limit {
    /// How many there may be.
    pub fn most(self) -> u32
        ensures { result ≡ most self }
    {
        match self {
            Limit::Classes => CLASS_DEPTH,
            Limit::Bodies => BODY_DEPTH,
            Limit::Parentheses => PARENTHESES,
            Limit::Operands => OPERANDS,
            Limit::KeyBytes => KEY_BYTES,
            Limit::ScriptBytes => FILE_BYTES,
        }
    }
}
