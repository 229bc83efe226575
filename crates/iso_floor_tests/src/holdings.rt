//! What goes on while bodies stand in a gate.
use crate::crew::{Crew, run_script};
use crate::gates::{Holding, Stopper, Watcher};
use crate::reports::expect_fault;
use crate::shared::{check, expect};
use crate::suites::A_AND_B;
use iso_floor::fault::CloseFault;
use iso_floor::work::Cause;
use std::alloc::Global;
use std::process::Abort;
use std::rt::Clock;
use std::sync::Wait;
use std::thread::Threads;

/// While the first test stands in the gate the floor tells of this event, and then all end well.
fn expect_event<R: Abort + Clock + Threads + Wait + Sync>(
    rt: &R,
    alloc: Global,
    crew: Crew,
    event: u64,
) {
    let gate = Holding::new(rt, false);
    let watcher = Watcher::new(&gate, event.saturating_sub(1));
    let ran = run_script(rt, alloc, A_AND_B, crew, &gate, &watcher);
    check(rt, "the events", &watcher.told(), &event);
    check(rt, "the late ones", &gate.late(), &0);
    expect(rt, ran.closed.is_ok(), "a book");
}

/// One worker enters and leaves the class, and enters its first test: the third event. The body
/// stands in the gate until the floor has told of it. A floor that books the Enter only at the
/// Leave has nothing to tell; one that holds its Mutex from Enter to Leave doesn't let anybody ask.
/// On both the body gives up, and is late.
#[test]
fn enter_is_booked_before_its_body(rt: HostRuntime) {
    let crew = Crew {
        working: 1,
        ..Crew::of(2)
    };
    expect_event(&rt, rt.alloc(), crew, 3);
}

/// While one test stands in the gate another worker enters and leaves the other one: the fourth and
/// fifth event. On a floor that holds its Mutex over a body nobody can, and the first one is late.
#[test]
fn body_in_the_gate_holds_up_nobody(rt: HostRuntime) {
    expect_event(&rt, rt.alloc(), Crew::of(2), 5);
}

/// A third worker stops the floor while both tests stand in the gate: both workers end, with no
/// Leave booked, so that the history is as long as it was, the class is unfinished, and the one
/// receipt, of its opening, isn't lost.
#[test]
fn stop_ends_workers_whose_bodies_are_in_the_gate(rt: HostRuntime) {
    let gate = Holding::new(&rt, true);
    let stopper = Stopper::new(rt.alloc(), &gate);
    let crew = Crew {
        working: 2,
        cause: Cause::Stopped,
        ..Crew::of(3)
    };
    let ran = run_script(&rt, rt.alloc(), A_AND_B, crew, &gate, &stopper);
    check(&rt, "the late ones", &gate.late(), &0);
    check(&rt, "the events at the stop", &stopper.told(), &4);
    check(&rt, "the events", &ran.events, &4);
    check(&rt, "the receipts", &ran.receipts, &1);
    expect_fault(&rt, &ran.closed, CloseFault::Unfinished);
}
