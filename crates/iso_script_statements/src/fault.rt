use iso_model::input_error::InputError;
use iso_script_lexer::token::{Position, TokenFault};
use std::fmt;
use thiserror::Error;

/// What makes bytes no script.
#[derive(Clone, Copy, Debug, PartialEq, Eq)]
pub enum ScriptFaultKind {
    /// A byte that is not allowed where it stands, also in comments and texts: at the byte.
    BadByte,
    /// Bytes that spell no token, at the first, or an escape that a text does not have, at its
    /// backslash.
    BadToken,
    /// A number above 2^63 - 1, or right after the minus of a literal above 2^63: at the number.
    NumberTooBig,
    /// A text that is not closed on its line: at its opening quote.
    OpenText,
    /// A token that the grammar does not allow where it stands, at the token, or an empty key, at
    /// its quote.
    Expected,
    /// A second lifecycle block of one kind in a class: at its word.
    DoubleBlock,
    /// A second test or class of one name in a class, at the name, or a second mark of one kind, at
    /// its word.
    DoubleMember,
    /// A static or field whose name an earlier one of its class or an enclosing class has: at the
    /// name.
    NameTaken,
    /// A class without a test or class in it: at its closing brace.
    EmptyClass,
    /// A class, body, parenthesis or operand beyond the depth or number that is allowed: at what
    /// opens it.
    TooDeep,
    /// A name or text beyond its length, at the first byte past it; a key, at its quote; a script,
    /// at its start.
    TooLong,
    /// A display text or reason that is empty or too long, or begins or ends with a space: at its
    /// quote.
    BadDisplay,
    /// The key of the global lock, which no script may declare: at its quote.
    GlobalKey,
    /// The input ends where a token is needed: after its last byte.
    EndOfInput,
}

impl ScriptFaultKind {
    ghost use Rattle.std.specs.Prelude.{◌≡◌};
    ghost use Rattle.iso_script_statements.specs.FaultNames.{fault_name};

    /// How the kind is called.
    pub fn as_str(self) -> &'static str
        ensures { result.now ≡ fault_name self }
    {
        match self {
            ScriptFaultKind::BadByte => "BadByte",
            ScriptFaultKind::BadToken => "BadToken",
            ScriptFaultKind::NumberTooBig => "NumberTooBig",
            ScriptFaultKind::OpenText => "OpenText",
            ScriptFaultKind::Expected => "Expected",
            ScriptFaultKind::DoubleBlock => "DoubleBlock",
            ScriptFaultKind::DoubleMember => "DoubleMember",
            ScriptFaultKind::NameTaken => "NameTaken",
            ScriptFaultKind::EmptyClass => "EmptyClass",
            ScriptFaultKind::TooDeep => "TooDeep",
            ScriptFaultKind::TooLong => "TooLong",
            ScriptFaultKind::BadDisplay => "BadDisplay",
            ScriptFaultKind::GlobalKey => "GlobalKey",
            ScriptFaultKind::EndOfInput => "EndOfInput",
        }
    }
}

impl fmt::Display for ScriptFaultKind {
    ghost use Rattle.std.specs.Prelude.{Some};
    ghost use Rattle.iso_script_statements.specs.FaultNames.{fault_name};

    ghost output = { λ kind. Some (fault_name kind) };

    fn fmt<W: fmt::Write>(&self, f: &mut fmt::Formatter<W>) -> fmt::Result {
        f.write_str(self.as_str())
    }
}

/// A fault of a script, and where it lies. Lines and columns count from 1, and a column counts
/// bytes.
#[derive(Clone, Copy, Debug, PartialEq, Eq, Error)]
#[error("{kind} at line {line}, column {column}")]
pub struct ScriptFault {
    pub kind: ScriptFaultKind,
    pub line: u32,
    pub column: u32,
}

impl ScriptFault {
    ghost use Rattle.std.specs.Prelude.{◌≡◌};

    /// A fault at this position.
    pub fn at(kind: ScriptFaultKind, position: Position) -> ScriptFault
        ensures { result ≡ record { kind = kind; line = position.line; column = position.column } }
    {
        ScriptFault {
            kind,
            line: position.line,
            column: position.column,
        }
    }
}

/// Why a script could not be read.
pub type ScriptError = InputError<ScriptFault>;

impl From<TokenFault> for ScriptFaultKind {
    ghost use Rattle.std.specs.Prelude.{◌≡◌};
    ghost use Rattle.iso_script_statements.specs.Faults.{kind_of};

    ghost from_gives = { λ fault kind. kind ≡ kind_of fault };

    fn from(fault: TokenFault) -> ScriptFaultKind {
        match fault {
            TokenFault::BadByte => ScriptFaultKind::BadByte,
            TokenFault::BadToken => ScriptFaultKind::BadToken,
            TokenFault::NumberTooBig => ScriptFaultKind::NumberTooBig,
            TokenFault::OpenText => ScriptFaultKind::OpenText,
            TokenFault::TooLong => ScriptFaultKind::TooLong,
        }
    }
}
