//! Schedules of the three teams' example that are picked at random, on 1 to 8 workers.
ghost use Rattle.std.specs.Prelude.{◌≡◌};

use crate::suites::{Check, Surroundings, TWO_WORKERS, check_inputs, expect};
use iso_core::machine::Core;
use iso_core::run_events::run_events;
use iso_plan::plan::Plan;
use iso_run::course::Course;
use iso_run::run::run_serial;
use iso_settings::world::World;
use iso_standing::event::Event;
use iso_standing::refused::CoreFault;
use iso_tap::memory::MemorySink;
use iso_tap::report::write_report;
use iso_teams::{OPS, ORDERS, SHOP, WORLD};
use iso_telling::tells::Tells;
use std::alloc::{AllocError, Global};
use std::process::Abort;

/// Numbers that look random (xorshift), the same from each seed.
#[derive(Clone, Copy)]
pub(crate) struct Numbers {
    state: u64,
}

impl Numbers {
    /// Those of a seed.
    pub(crate) fn of_seed(seed: u64) -> Numbers {
        Numbers {
            state: 0x9E37_79B9_7F4A_7C15 ^ seed,
        }
    }

    pub(crate) fn next(&mut self) -> u64 {
        self.state ^= self.state << 13;
        self.state ^= self.state >> 7;
        self.state ^= self.state << 17;
        self.state
    }

    /// An event of one of 8 workers and, where it names a node, of one of 32.
    fn event(&mut self) -> Event {
        let number = self.next();
        let worker = (number / 4 % 8) as u32;
        let node = (number / 32 % 32) as u32;
        match number % 4 {
            0 => Event::Enter { worker, node },
            1 => Event::Step { worker },
            2 => Event::Leave { worker },
            _ => Event::Shut { worker, node },
        }
    }
}

/// A whole schedule: of events at random those that are accepted, until every node is finished.
fn schedule(
    alloc: Global,
    core: &mut Core<'_>,
    mut numbers: Numbers,
) -> Result<Vec<Event>, AllocError> {
    let mut events = Vec::new(alloc);
    for _ in 0..10_000_000 {
        let event = numbers.event();
        match core.apply(event) {
            Ok(()) => events.push(event)?,
            Err(CoreFault::Refused(_)) => continue,
            Err(CoreFault::OutOfMemory) => return Err(AllocError),
        }
        if core.is_complete() {
            break;
        }
    }
    Ok(events)
}

/// Such a schedule of a plan on `workers` workers.
fn schedule_of(
    alloc: Global,
    plan: &Plan,
    world: &World,
    workers: u32,
    numbers: Numbers,
) -> Result<Vec<Event>, AllocError> {
    let mut core = Core::new(alloc, plan, world, workers)?;
    schedule(alloc, &mut core, numbers)
}

/// Whether a core's run is whole and gives this report.
fn reports(alloc: Global, plan: &Plan, core: &Core<'_>, report: &[u8]) -> bool
    requires { core.now.plan ≡ plan.now }
{
    let mut sink = MemorySink::new(alloc);
    core.is_complete()
        && write_report(plan, core.results(), &mut sink).is_ok()
        && sink.bytes() == report
}

/// Whether a schedule is whole and gives this report.
pub(crate) fn gives_report<R: Abort>(
    rt: &R,
    alloc: Global,
    plan: &Plan,
    world: &World,
    workers: u32,
    events: &[Event],
    report: &[u8],
) -> bool {
    let core = run_events(alloc, plan, world, workers, events).expect(rt, "accepted events");
    reports(alloc, plan, &core, report)
}

/// Whether the schedule that is picked from a seed gives this report.
fn seed_gives_report<R: Abort>(
    rt: &R,
    alloc: Global,
    plan: &Plan,
    world: &World,
    seed: u64,
    report: &[u8],
) -> bool {
    let workers = (1 + seed % 8) as u32;
    let events = schedule_of(alloc, plan, world, workers, Numbers::of_seed(seed)).expect(
        rt, "memory",
    );
    gives_report(rt, alloc, plan, world, workers, &events, report)
}

/// 200 schedules give this report.
#[derive(Clone, Copy)]
struct GiveReport<'a>(&'a [u8]);

impl<'a> Check for GiveReport<'a> {
    fn check<R: Abort>(&self, rt: &R, alloc: Global, plan: &Plan, world: &World) {
        for seed in 0..200u64 {
            assert!(rt;
                seed_gives_report(rt, alloc, plan, world, seed, self.0),
                "at seed {seed}"
            );
        }
    }
}

#[test]
fn schedules_at_random_give_the_report_of_the_serial_run(rt: HostRuntime) {
    let surroundings = Surroundings {
        settings: TWO_WORKERS,
        world: WORLD,
    };
    let scripts = [SHOP.as_bytes(), ORDERS.as_bytes(), OPS.as_bytes()];
    let inputs = surroundings.inputs(&scripts);
    let mut tells = Tells::nothing();
    let mut course = Course::nothing();
    let mut serial = MemorySink::new(rt.alloc());
    expect(
        &rt,
        run_serial(
            &rt,
            rt.alloc(),
            inputs,
            &mut tells,
            &mut course,
            &mut serial,
        )
        .is_ok(),
        "the serial run fails",
    );
    check_inputs(&rt, rt.alloc(), inputs, &GiveReport(serial.bytes()));
}
