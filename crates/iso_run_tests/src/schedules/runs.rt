//! Schedules whose events are all accepted, and what the nodes have come to after them.
ghost use Rattle.std.specs.Prelude.{◌≡◌};

use crate::suites::{CONCURRENT, Check, SOON, TWO_FILES, check_script, expect};
use crate::told::expect_told;
use iso_core::machine::Core;
use iso_core::run_events::run_events;
use iso_plan::plan::Plan;
use iso_run::inputs::{Suite, read_inputs};
use iso_schedule::reader::read_schedule;
use iso_settings::world::World;
use iso_standing::event::Event;
use iso_standing::refused::{CoreFault, Refused};
use std::alloc::Global;
use std::process::Abort;

/// A schedule on two workers: whether it is whole, and what some nodes have come to after it.
pub(super) struct Row {
    pub script: &'static str,
    pub schedule: &'static str,
    pub whole: bool,
    pub nodes: &'static [(u32, &'static str)],
}

/// Two readers side by side, then two writers.
const READERS_FIRST: &str =
    "enter 0 1\nleave 0\nenter 0 2\nenter 1 3\nstep 0\nstep 1\nleave 1\nstep 0\nleave 0\n\
enter 1 4\nenter 0 5\nstep 1\nstep 0\nstep 1\nstep 0\nleave 1\nleave 0\nshut 0 1\nleave 0";

pub(super) const OF_TWO_FILES: &[(u32, &str)] = &[
    (1, "pass"),
    (2, "pass | s | x"),
    (3, "pass | s"),
    (4, "pass"),
    (5, "pass | m"),
];

/// A class whose `before_all` fails.
const BARRED: &str = "team shop
class C { before_all { print \"open\"; fail \"no db\"; } after_all { print \"close\"; } test t { print \"t\"; }
class D { before_all { print \"never\"; } test u { } } }
";

/// Schedules that aren't whole. Whole ones stand in `tests/rows/replay.toml`.
static ROWS: [Row; 4] = [
    Row {
        script: TWO_FILES,
        schedule: "enter 0 1\nleave 0\nenter 0 2\nenter 1 3\nstep 0\nstep 1\nleave 1",
        whole: false,
        nodes: &[
            (1, "none"),
            (2, "none"),
            (3, "pass | s"),
            (4, "none"),
            (5, "none"),
        ],
    },
    Row {
        script: TWO_FILES,
        schedule: "",
        whole: false,
        nodes: &[(0, "none"), (1, "none"), (2, "none")],
    },
    Row {
        script: BARRED,
        schedule: "enter 1 1\nstep 1\nstep 1\nleave 1",
        whole: false,
        nodes: &[
            (1, "none"),
            (2, "blocked: no db at class 1 before_all row 1"),
        ],
    },
    Row {
        script: SOON,
        schedule: "enter 0 1\nleave 0",
        whole: false,
        nodes: &[(1, "none"), (2, "skipped: soon at disabled")],
    },
];

/// Compares whether a run is whole, and what nodes have come to.
fn compare_core<R: Abort>(rt: &R, alloc: Global, plan: &Plan, core: &Core<'_>, row: &Row)
    requires { core.now.plan ≡ plan.now }
{
    assert!(rt; core.is_complete() == row.whole, "after {}", row.schedule);
    for (node, want) in row.nodes {
        assert!(rt; *node < plan.len());
        expect_told(rt, alloc, *node, core.outcome(*node), want, row.schedule);
    }
}

/// Compares a core on two workers that has taken these events.
pub(super) fn compare_events<R: Abort>(
    rt: &R,
    alloc: Global,
    plan: &Plan,
    world: &World,
    events: &[Event],
    row: &Row,
) {
    let core = run_events(alloc, plan, world, 2, events).expect(rt, "accepted events");
    compare_core(rt, alloc, plan, &core, row);
}

impl Check for Row {
    fn check<R: Abort>(&self, rt: &R, alloc: Global, plan: &Plan, world: &World) {
        let events = read_schedule(alloc, self.schedule.as_bytes()).expect(rt, "a schedule");
        compare_events(rt, alloc, plan, world, &events, self);
    }
}

#[test]
fn nodes_come_to_what_they_come_to_alone(rt: HostRuntime) {
    for row in &ROWS {
        check_script(&rt, rt.alloc(), row.script, CONCURRENT, row);
    }
}

/// Whether a core refuses every event since it was stopped, before it looks at the worker, and so
/// allows none.
fn is_stopped(core: &mut Core<'_>) -> bool {
    for event in [
        Event::Enter { worker: 2, node: 9 },
        Event::Step { worker: 2 },
        Event::Leave { worker: 2 },
        Event::Shut { worker: 2, node: 9 },
    ] {
        if core.apply(event) != Err(CoreFault::Refused(Refused::Stopped)) {
            return false;
        }
    }
    core.allowed_event().is_none()
}

/// Whether a core takes events to the end, but for a step that is refused memory, which stops it,
/// and any other event that is, which it takes next.
fn takes_or_stops(core: &mut Core<'_>, events: &[Event]) -> bool {
    for event in events {
        if core.apply(*event).is_ok() {
            continue;
        }
        if let Event::Step { .. } = event {
            return is_stopped(core);
        }
        if core.apply(*event).is_err() {
            return false;
        }
    }
    core.is_complete()
}

/// Whether a new core of a suite, where there is memory for it, takes these events so.
fn new_core_takes_or_stops(alloc: Global, suite: &Suite, events: &[Event]) -> bool {
    match Core::new(alloc, &suite.plan, &suite.world, 2) {
        Ok(mut core) => takes_or_stops(&mut core, events),
        Err(_) => true,
    }
}

/// Run with each growth refused in turn, by `rt try --test --fail-alloc N`: a step that is refused
/// one stops the core, and any other event is accepted after it.
#[test]
fn refused_growth_stops_a_step_alone(rt: HostRuntime) {
    let scripts = [TWO_FILES.as_bytes()];
    if let Ok(events) = read_schedule(rt.alloc(), READERS_FIRST.as_bytes())
        && let Ok(suite) = read_inputs(rt.alloc(), CONCURRENT.inputs(&scripts), false)
    {
        let is_so = new_core_takes_or_stops(rt.alloc(), &suite, &events);
        expect(&rt, is_so, "an event is refused");
    }
}
