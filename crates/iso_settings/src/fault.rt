ghost use Rattle.iso_settings.specs.Readings.{IsFault};
ghost use Rattle.iso_settings.specs.declared.fault.SettingsFault.TheVariants.{WrongValue, Unsupported, OutOfRange};

use iso_model::input_error::InputError;
use iso_model::text::Text;
use std::alloc::Global;
use std::fmt;
use thiserror::Error;

/// What is wrong with settings or with a world. A fault shows as its kind, and its key if it has
/// one.
#[derive(Drop, Error)]
pub enum SettingsFault {
    /// The text is no TOML document.
    #[error("NotToml")]
    NotToml,
    /// The value at this key is of another kind or text than the key takes, or the key is reached
    /// by two spellings.
    #[error("WrongValue {}", .0.as_str())]
    WrongValue(Text),
    /// The value at this key is one of JUnit's that is left out here.
    #[error("Unsupported {}", .0.as_str())]
    Unsupported(Text),
    /// Parallel execution is on and the strategy is fixed, but no parallelism is given.
    #[error("MissingParallelism")]
    MissingParallelism,
    /// The number at this key is below 1 or above 64, or the text at it or the key itself is too
    /// long.
    #[error("OutOfRange {}", .0.as_str())]
    OutOfRange(Text),
}

impl fmt::Debug for SettingsFault {
    fn fmt<W: fmt::Write>(&self, f: &mut fmt::Formatter<W>) -> fmt::Result {
        write!(f, "{self}")
    }
}

/// Why settings or a world could not be read.
pub type SettingsError = InputError<SettingsFault>;

/// The fault `WrongValue` at a key.
pub(crate) fn wrong_value(alloc: Global, key: &str) -> SettingsError
    ensures { IsFault (WrongValue key.now) result }
{
    match Text::copied(alloc, key) {
        Ok(key) => SettingsError::Fault(SettingsFault::WrongValue(key)),
        Err(_) => SettingsError::OutOfMemory,
    }
}

/// The fault `Unsupported` at a key.
pub(crate) fn unsupported(alloc: Global, key: &str) -> SettingsError
    ensures { IsFault (Unsupported key.now) result }
{
    match Text::copied(alloc, key) {
        Ok(key) => SettingsError::Fault(SettingsFault::Unsupported(key)),
        Err(_) => SettingsError::OutOfMemory,
    }
}

/// The fault `OutOfRange` at a key.
pub(crate) fn out_of_range(alloc: Global, key: &str) -> SettingsError
    ensures { IsFault (OutOfRange key.now) result }
{
    match Text::copied(alloc, key) {
        Ok(key) => SettingsError::Fault(SettingsFault::OutOfRange(key)),
        Err(_) => SettingsError::OutOfMemory,
    }
}
