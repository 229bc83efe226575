//! A list of events, taken in turn.
ghost use Rattle.std.specs.Prelude.{◌≡◌, MatchResult};
ghost use Rattle.iso_core.specs.EventRuns.{Ran, StoppedAt};

use crate::machine::Core;
use iso_plan::plan::Plan;
use iso_settings::world::World;
use iso_standing::event::Event;
use iso_standing::refused::CoreFault;
use std::alloc::Global;

/// Which event of a list the core didn't take, counted from 0, and why. Running out of memory for
/// a new core is of event 0.
#[derive(Clone, Copy, Debug, PartialEq, Eq)]
pub struct EventsFault {
    pub index: usize,
    pub fault: CoreFault,
}

/// The core of a plan and a world on `workers` workers once it has taken these events in turn, or
/// the first event that it didn't take.
pub fn run_events<'a>(
    alloc: Global,
    plan: &'a Plan,
    world: &'a World,
    workers: u32,
    events: &[Event],
) -> Result<Core<'a>, EventsFault>
    ensures { MatchResult result (Ran plan.now world.now workers events.now)
        (StoppedAt plan.now world.now workers events.now) }
{
    let mut core = match Core::new(alloc, plan, world, workers) {
        Ok(core) => core,
        Err(_) => {
            return Err(EventsFault {
                index: 0,
                fault: CoreFault::OutOfMemory,
            });
        }
    };
    'events: for index in 0..events.len() {
        if let Err(fault) = core.apply(events[index]) {
            return Err(EventsFault { index, fault });
        }
    }
    Ok(core)
}
