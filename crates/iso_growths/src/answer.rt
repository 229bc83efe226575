//! What comes of a call other than that it went well.
use iso_core::run_events::EventsFault;
use iso_floor::fault::SeatFault;
use iso_places::fault::LocateError;
use iso_plan::fault::PlanError;
use iso_schedule::fault::ScheduleError;
use iso_script_statements::fault::ScriptError;
use iso_settings::fault::SettingsError;
use iso_standing::refused::CoreFault;
use std::alloc::{AllocError, AllocFailed};

/// What comes of a call other than that it went well.
#[derive(Drop)]
pub(crate) enum Answer {
    /// Memory ran out, and what stands is as it should be.
    OutOfMemory,
    /// Something that running out of memory is no reason for.
    Wrong(&'static str),
}

/// What is wrong, unless this holds.
pub(crate) fn expect(holds: bool, wrong: &'static str) -> Result<(), Answer> {
    if holds {
        Ok(())
    } else {
        Err(Answer::Wrong(wrong))
    }
}

/// What came of a call that was refused memory: out of memory, where what stands is as it should
/// be.
pub(crate) fn out_of_memory(stands: bool, wrong: &'static str) -> Answer {
    if stands {
        Answer::OutOfMemory
    } else {
        Answer::Wrong(wrong)
    }
}

impl From<AllocError> for Answer {
    fn from(_error: AllocError) -> Answer {
        Answer::OutOfMemory
    }
}

impl<T: Drop> From<AllocFailed<T>> for Answer {
    fn from(_error: AllocFailed<T>) -> Answer {
        Answer::OutOfMemory
    }
}

impl From<CoreFault> for Answer {
    fn from(fault: CoreFault) -> Answer {
        out_of_memory(fault == CoreFault::OutOfMemory, "an event was refused")
    }
}

impl From<SeatFault> for Answer {
    fn from(fault: SeatFault) -> Answer {
        out_of_memory(fault == SeatFault::OutOfMemory, "there was no seat")
    }
}

impl From<EventsFault> for Answer {
    fn from(stopped: EventsFault) -> Answer {
        Answer::from(stopped.fault)
    }
}

impl From<SettingsError> for Answer {
    fn from(error: SettingsError) -> Answer {
        let is_memory = matches!(&error, SettingsError::OutOfMemory);
        out_of_memory(is_memory, "settings or a world were refused")
    }
}

impl From<ScriptError> for Answer {
    fn from(error: ScriptError) -> Answer {
        out_of_memory(error == ScriptError::OutOfMemory, "the script was refused")
    }
}

impl From<PlanError> for Answer {
    fn from(error: PlanError) -> Answer {
        out_of_memory(error == PlanError::OutOfMemory, "the scripts were refused")
    }
}

impl From<LocateError> for Answer {
    fn from(error: LocateError) -> Answer {
        out_of_memory(error == LocateError::OutOfMemory, "a node has no place")
    }
}

impl From<ScheduleError> for Answer {
    fn from(error: ScheduleError) -> Answer {
        out_of_memory(
            error == ScheduleError::OutOfMemory,
            "the schedule was refused",
        )
    }
}
