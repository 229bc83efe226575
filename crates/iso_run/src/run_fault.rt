//! Why a run has no report, or only its beginning.
ghost use Rattle.std.specs.Prelude.{◌≡◌};
ghost use Rattle.iso_run.specs.ExitStatuses.{exit_status, run_end};
ghost use Rattle.iso_run.specs.Replays.{events_fault, schedule_fault};
ghost use Rattle.iso_run.specs.declared.run_fault.RunFault.TheVariants.{Memory};

use crate::exit::{FAILED, WRONG_INPUT};
use iso_core::run_events::EventsFault;
use iso_plan::fault::PlanFault;
use iso_schedule::fault::{ScheduleError, ScheduleFault};
use iso_script::fault::ScriptFault;
use iso_settings::fault::SettingsFault;
use iso_standing::refused::{CoreFault, Refused};
use std::alloc::{AllocError, AllocFailed};

/// Why a run has no report, or only its beginning.
#[derive(Drop)]
pub enum RunFault {
    Settings(SettingsFault),
    World(SettingsFault),
    /// The fault of one script, by its place among the scripts, counted from 0.
    Script(usize, ScriptFault),
    Plan(PlanFault),
    /// The first wrong line of a schedule.
    Schedule(ScheduleFault),
    /// The first event of a schedule that was refused, counted from 0, and why.
    Refused(usize, Refused),
    /// A schedule was accepted to its end, or the workers have ended, and a node but the root isn't
    /// finished.
    Unfinished,
    /// A thread for a worker couldn't be started.
    Start,
    /// The receipts of the workers aren't those of the history.
    Lost,
    /// Memory ran out. Nothing was written.
    Memory,
    /// The sink failed, once it had taken this number of bytes of the report.
    Write(u64),
}

impl RunFault {
    /// The exit status of the program that meets this fault: 3 where no worker could be started, a
    /// receipt is lost, memory ran out or the sink failed; else 2, where its input is refused, and
    /// with `Unfinished`.
    pub fn status(&self) -> u8
        ensures { result ≡ exit_status (run_end self.now) }
    {
        match self {
            RunFault::Settings(_)
            | RunFault::World(_)
            | RunFault::Script(..)
            | RunFault::Plan(_)
            | RunFault::Schedule(_)
            | RunFault::Refused(..)
            | RunFault::Unfinished => WRONG_INPUT,
            RunFault::Start | RunFault::Lost | RunFault::Memory | RunFault::Write(_) => FAILED,
        }
    }
}

impl From<AllocError> for RunFault {
    ghost from_gives = { λ _ fault. fault ≡ Memory };

    fn from(_error: AllocError) -> RunFault {
        RunFault::Memory
    }
}

impl<T: Drop> From<AllocFailed<T>> for RunFault {
    ghost from_gives = { λ _ fault. fault ≡ Memory };

    fn from(_error: AllocFailed<T>) -> RunFault {
        RunFault::Memory
    }
}

impl From<ScheduleError> for RunFault {
    ghost from_gives = { λ error fault. fault ≡ schedule_fault error };

    fn from(error: ScheduleError) -> RunFault {
        match error {
            ScheduleError::Fault(fault) => RunFault::Schedule(fault),
            ScheduleError::OutOfMemory => RunFault::Memory,
        }
    }
}

impl From<EventsFault> for RunFault {
    ghost from_gives = { λ error fault. fault ≡ events_fault error };

    fn from(error: EventsFault) -> RunFault {
        match error.fault {
            CoreFault::Refused(why) => RunFault::Refused(error.index, why),
            CoreFault::OutOfMemory => RunFault::Memory,
        }
    }
}
