//! Events of the core, and the same event again where one was refused memory.
use crate::answer::{Answer, expect, out_of_memory};
use crate::calls::Calls;
use crate::host::Host;
use crate::suites::SCHEDULE;
use iso_core::machine::Core;
use iso_core::run_events::run_events;
use iso_plan::plan::Plan;
use iso_schedule::reader::read_schedule;
use iso_settings::world::World;
use iso_standing::event::Event;
use iso_standing::refused::{CoreFault, Refused};

/// Takes all events of a suite, one after another.
pub(crate) fn take_events<H: Host>(
    calls: &Calls<'_, H>,
    plan: &Plan,
    world: &World,
) -> Result<(), Answer> {
    calls.begin("read_schedule");
    let events = read_schedule(calls.alloc(), SCHEDULE);
    calls.end("read_schedule");
    let events = events?;
    at_once(calls, plan, world, &events)?;
    on_core(calls, plan, world, &events)
}

/// Takes them by one call.
fn at_once<H: Host>(
    calls: &Calls<'_, H>,
    plan: &Plan,
    world: &World,
    events: &[Event],
) -> Result<(), Answer> {
    calls.begin("run_events");
    let ran = run_events(calls.alloc(), plan, world, 2, events);
    calls.end("run_events");
    let core = ran?;
    expect(core.is_complete(), "a node is left")
}

/// Takes events on a new core.
fn on_core<H: Host>(
    calls: &Calls<'_, H>,
    plan: &Plan,
    world: &World,
    events: &[Event],
) -> Result<(), Answer> {
    calls.begin("Core::new");
    let made = Core::new(calls.alloc(), plan, world, 2);
    calls.end("Core::new");
    take_in_turn(calls, &mut made?, events)
}

/// The call that an event is.
fn name_of(event: Event) -> &'static str {
    match event {
        Event::Enter { .. } => "Core::apply of Enter",
        Event::Step { .. } => "Core::apply of Step",
        Event::Leave { .. } => "Core::apply of Leave",
        Event::Shut { .. } => "Core::apply of Shut",
    }
}

/// Takes events in turn. After one that was refused memory the core takes it and all after it, but
/// for a step, after which it is stopped.
fn take_in_turn<H: Host>(
    calls: &Calls<'_, H>,
    core: &mut Core<'_>,
    events: &[Event],
) -> Result<(), Answer> {
    for (at, event) in events.iter().enumerate() {
        let name = name_of(*event);
        calls.begin(name);
        let taken = core.apply(*event);
        calls.end(name);
        if let Err(fault) = taken {
            return Err(after(core, fault, *event, &events[at..]));
        }
    }
    expect(core.is_complete(), "a node is left")
}

/// What comes of a core that didn't take the first of these events.
fn after(core: &mut Core<'_>, fault: CoreFault, event: Event, events: &[Event]) -> Answer {
    if fault != CoreFault::OutOfMemory {
        return Answer::from(fault);
    }
    let stands = match event {
        Event::Step { .. } => is_stopped(core),
        Event::Enter { .. } | Event::Leave { .. } | Event::Shut { .. } => goes_on(core, events),
    };
    out_of_memory(stands, "a core that stands otherwise")
}

/// Whether a core refuses every event since it was stopped, before it looks at the worker.
fn is_stopped(core: &mut Core<'_>) -> bool {
    for event in [
        Event::Enter { worker: 2, node: 1 },
        Event::Step { worker: 2 },
        Event::Leave { worker: 2 },
        Event::Shut { worker: 2, node: 1 },
    ] {
        if core.apply(event) != Err(CoreFault::Refused(Refused::Stopped)) {
            return false;
        }
    }
    true
}

/// Whether a core takes these events, with which it is complete.
fn goes_on(core: &mut Core<'_>, events: &[Event]) -> bool {
    for event in events {
        if core.apply(*event).is_err() {
            return false;
        }
    }
    core.is_complete()
}
