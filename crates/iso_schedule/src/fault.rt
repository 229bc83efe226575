use iso_model::input_error::InputError;
use std::fmt;
use thiserror::Error;

/// What makes bytes no schedule.
#[derive(Clone, Copy, Debug, PartialEq, Eq)]
pub enum ScheduleFaultKind {
    /// A line that is neither empty nor an event.
    BadLine,
    /// An event whose worker or node is written with more than nine digits.
    NumberTooBig,
    /// More than 1,048,576 bytes: at line 1.
    TooLong,
}

impl ScheduleFaultKind {
    ghost use Rattle.std.specs.Prelude.{◌≡◌};
    ghost use Rattle.iso_schedule.specs.FaultNames.{fault_name};

    /// How the kind is called.
    pub fn as_str(self) -> &'static str
        ensures { result.now ≡ fault_name self }
    {
        match self {
            ScheduleFaultKind::BadLine => "BadLine",
            ScheduleFaultKind::NumberTooBig => "NumberTooBig",
            ScheduleFaultKind::TooLong => "TooLong",
        }
    }
}

impl fmt::Display for ScheduleFaultKind {
    ghost use Rattle.std.specs.Prelude.{Some};
    ghost use Rattle.iso_schedule.specs.FaultNames.{fault_name};

    ghost output = { λ kind. Some (fault_name kind) };

    fn fmt<W: fmt::Write>(&self, f: &mut fmt::Formatter<W>) -> fmt::Result {
        f.write_str(self.as_str())
    }
}

/// A fault of a schedule, and the line where it lies. Lines count from 1.
#[derive(Clone, Copy, Debug, PartialEq, Eq, Error)]
#[error("{kind} at line {line}")]
pub struct ScheduleFault {
    pub kind: ScheduleFaultKind,
    pub line: u32,
}

/// Why a schedule could not be read.
pub type ScheduleError = InputError<ScheduleFault>;
