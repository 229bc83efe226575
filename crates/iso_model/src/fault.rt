//! The faults that end a block, and their messages.
ghost use Rattle.std.specs.Prelude.{◌≡◌, ◌++◌, IfOk};
ghost use Rattle.iso_model.specs.Texts.{fault_message, kind_of, out_of_steps_message};

use crate::access::Access;
use crate::key::Key;
use crate::text::Text;
use std::alloc::{AllocError, Global};

/// The kinds of fault that end a block.
#[derive(Clone, Copy, PartialEq, Eq)]
pub enum FaultKind {
    Undeclared,
    Overflow,
    UnknownName,
    DoubleName,
    Frozen,
    WrongKind,
    Missing,
    BadCount,
    OutOfSteps,
    OutputFull,
    TextTooLong,
}

/// A fault that a statement or an expression gives, with what its message names.
/// None gives OutOfSteps, which comes before anything else of a step.
#[derive(Drop)]
pub enum Fault {
    /// The access that was wanted, and the key whose declared access doesn't allow it.
    Undeclared(Access, Key),
    Overflow,
    UnknownName(Text),
    DoubleName(Text),
    Frozen(Text),
    WrongKind,
    MissingProperty(Text),
    MissingFile(Text),
    BadCount,
    OutputFull,
    TextTooLong,
}

impl Fault {
    /// Its kind.
    pub fn kind(&self) -> FaultKind
        ensures { result ≡ kind_of self.now }
    {
        match self {
            Fault::Undeclared(_, _) => FaultKind::Undeclared,
            Fault::Overflow => FaultKind::Overflow,
            Fault::UnknownName(_) => FaultKind::UnknownName,
            Fault::DoubleName(_) => FaultKind::DoubleName,
            Fault::Frozen(_) => FaultKind::Frozen,
            Fault::WrongKind => FaultKind::WrongKind,
            Fault::MissingProperty(_) | Fault::MissingFile(_) => FaultKind::Missing,
            Fault::BadCount => FaultKind::BadCount,
            Fault::OutputFull => FaultKind::OutputFull,
            Fault::TextTooLong => FaultKind::TextTooLong,
        }
    }

    /// Its message.
    pub fn message(&self, alloc: Global) -> Result<Text, AllocError>
        ensures { IfOk result (λ t. t ≡ fault_message self.now) }
    {
        match self {
            Fault::Undeclared(access, key) => {
                let wanted = said(alloc, "undeclared ", access.word(), " of ")?;
                said(alloc, wanted.as_str(), key.as_str(), "")
            }
            Fault::Overflow => Text::copied(alloc, "overflow"),
            Fault::UnknownName(name) => said(alloc, "unknown name ", name.as_str(), ""),
            Fault::DoubleName(name) => said(alloc, "name ", name.as_str(), " is taken"),
            Fault::Frozen(name) => said(alloc, "", name.as_str(), " is frozen"),
            Fault::WrongKind => Text::copied(alloc, "wrong kind"),
            Fault::MissingProperty(name) => said(alloc, "missing property ", name.as_str(), ""),
            Fault::MissingFile(path) => said(alloc, "missing file ", path.as_str(), ""),
            Fault::BadCount => Text::copied(alloc, "bad count"),
            Fault::OutputFull => Text::copied(alloc, "output is full"),
            Fault::TextTooLong => Text::copied(alloc, "text is too long"),
        }
    }
}

/// The message of a block that has no step left (`FaultKind::OutOfSteps`).
pub fn out_of_steps_message(alloc: Global) -> Result<Text, AllocError>
    ensures { IfOk result (λ t. t ≡ out_of_steps_message) }
{
    Text::copied(alloc, "out of steps")
}

/// What is named, between the words of a message.
fn said(alloc: Global, before: &str, name: &str, after: &str) -> Result<Text, AllocError>
    ensures { IfOk result (λ t. t ≡ before.now ++ name.now ++ after.now) }
{
    Ok(Text::new(format!(in alloc; "{before}{name}{after}")?))
}
