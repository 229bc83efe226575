//! Schedules of the events that a core allows, one after another.
use super::generated::{WORLD, script_of};
use super::runs::{OF_TWO_FILES, Row, compare_events};
use crate::random::gives_report;
use crate::suites::{
    CONCURRENT, Check, LATER, SERIAL, SOON, Surroundings, TWO_FILES, TWO_WORKERS, check_inputs,
    check_script, expect,
};
use iso_core::machine::Core;
use iso_plan::plan::Plan;
use iso_run::course::Course;
use iso_run::run::run_serial;
use iso_schedule::reader::read_schedule;
use iso_settings::world::World;
use iso_standing::event::Event;
use iso_tap::memory::MemorySink;
use iso_telling::tells::Tells;
use std::alloc::{AllocError, Global};
use std::process::Abort;
use std::rt::Clock;

/// The events that a core allows and takes, until it allows none.
fn allowed_events(alloc: Global, core: &mut Core<'_>) -> Result<Vec<Event>, AllocError> {
    let mut events = Vec::new(alloc);
    for _ in 0..1_000_000 {
        let Some(event) = core.allowed_event() else {
            break;
        };
        if core.apply(event).is_err() {
            return Err(AllocError);
        }
        events.push(event)?;
    }
    Ok(events)
}

/// Those of a new core on `workers` workers.
fn allowed_events_of<R: Abort>(
    rt: &R,
    alloc: Global,
    plan: &Plan,
    world: &World,
    workers: u32,
) -> Vec<Event> {
    let mut core = Core::new(alloc, plan, world, workers).expect(rt, "memory");
    allowed_events(alloc, &mut core).expect(rt, "allowed events are taken")
}

/// What the nodes of the suite of two files come to.
static WHOLE: Row = Row {
    script: TWO_FILES,
    schedule: "what is allowed",
    whole: true,
    nodes: OF_TWO_FILES,
};

/// On two workers all nodes come to what they come to alone, in this number of events; then none is
/// allowed.
#[derive(Clone, Copy)]
struct EndsIn(usize);

impl Check for EndsIn {
    fn check<R: Abort>(&self, rt: &R, alloc: Global, plan: &Plan, world: &World) {
        let events = allowed_events_of(rt, alloc, plan, world, 2);
        assert_eq!(rt; events.len(), self.0);
        compare_events(rt, alloc, plan, world, &events, &WHOLE);
    }
}

#[test]
fn allowed_events_lead_to_the_end(rt: HostRuntime) {
    check_script(&rt, rt.alloc(), TWO_FILES, CONCURRENT, &EndsIn(19));
}

/// On one worker these events are allowed, in turn, and none after them.
#[derive(Clone, Copy)]
struct Allows(&'static str);

impl Check for Allows {
    fn check<R: Abort>(&self, rt: &R, alloc: Global, plan: &Plan, world: &World) {
        let want = read_schedule(alloc, self.0.as_bytes()).expect(rt, "a schedule");
        let events = allowed_events_of(rt, alloc, plan, world, 1);
        expect(rt, events == want, self.0);
    }
}

#[test]
fn disabled_class_is_entered_left_and_shut(rt: HostRuntime) {
    let allows = &Allows("enter 0 1\nleave 0\nshut 0 1\nleave 0");
    check_script(&rt, rt.alloc(), SOON, SERIAL, allows);
}

#[test]
fn disabled_test_is_entered_and_left(rt: HostRuntime) {
    let allows = &Allows(
        "enter 0 1\nstep 0\nleave 0\nenter 0 2\nleave 0\nenter 0 3\nleave 0\nshut 0 1\nleave 0",
    );
    check_script(&rt, rt.alloc(), LATER, SERIAL, allows);
}

#[test]
fn plan_without_classes_allows_no_event(rt: HostRuntime) {
    check_script(&rt, rt.alloc(), "team shop\n", SERIAL, &Allows(""));
}

/// The events that are allowed on `workers` workers give this report.
#[derive(Clone, Copy)]
struct Give<'a> {
    workers: u32,
    report: &'a [u8],
}

impl Check for Give<'_> {
    fn check<R: Abort>(&self, rt: &R, alloc: Global, plan: &Plan, world: &World) {
        let events = allowed_events_of(rt, alloc, plan, world, self.workers);
        let gives = gives_report(rt, alloc, plan, world, self.workers, &events, self.report);
        expect(rt, gives, "another report");
    }
}

/// Asserts that what is allowed on `workers` workers leads to the serial run's report of a script.
fn expect_serial_report<R: Abort + Clock>(rt: &R, alloc: Global, script: &str, workers: u32) {
    let scripts = [script.as_bytes()];
    let surroundings = Surroundings {
        settings: TWO_WORKERS,
        world: WORLD,
    };
    let inputs = surroundings.inputs(&scripts);
    let mut serial = MemorySink::new(alloc);
    let mut tells = Tells::nothing();
    let mut course = Course::nothing();
    expect(
        rt,
        run_serial(rt, alloc, inputs, &mut tells, &mut course, &mut serial).is_ok(),
        script,
    );
    let report = serial.bytes();
    check_inputs(rt, alloc, inputs, &Give { workers, report });
}

#[test]
fn allowed_events_give_the_report_of_the_serial_run(rt: HostRuntime) {
    for seed in 0..500u64 {
        let script = script_of(rt.alloc(), seed).expect(&rt, "memory");
        let workers = (1 + seed % 8) as u32;
        expect_serial_report(&rt, rt.alloc(), script.as_str(), workers);
    }
}
