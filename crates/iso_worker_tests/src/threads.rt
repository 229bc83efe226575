//! Two threads tell one gate of their bodies.
use crate::clock::Readings;
use crate::shared::check;
use iso_lifecycle::gate::{Gate, OpenGate};
use iso_lifecycle::kind::BodyKind;
use iso_times::gate::TimesGate;
use iso_times::times::Times;
use std::alloc::Global;
use std::process::Abort;
use std::thread::{Threads, join};

/// Tells a gate of a test's body.
fn tell<G: Gate>(gate: &G, worker: u32, node: u32) {
    gate.begins(worker, node, BodyKind::Test);
    gate.ends(worker, node, BodyKind::Test, true);
}

/// Workers 0 and 1 tell of nodes 1 and 2, each in a thread of its own.
fn tell_both<R: Threads, G: Gate + Sync>(rt: &R, gate: &G) {
    join(rt, || tell(gate, 0, 1), || tell(gate, 1, 2));
}

/// The times that two threads have told.
fn times_of_both<R: Abort + Threads>(rt: &R, alloc: Global) -> Times {
    let clock = Readings::new(u64::MAX);
    let gate = TimesGate::new(alloc, &clock, &OpenGate, 3).expect(rt, "memory");
    tell_both(rt, &gate);
    gate.into_times()
}

/// The worker of a test.
fn worker(times: &Times, node: u32) -> Option<u32> {
    Some(times.body(node, BodyKind::Test)?.worker)
}

#[test]
fn each_body_has_its_own_worker(rt: HostRuntime) {
    let times = times_of_both(&rt, rt.alloc());
    let workers = [worker(&times, 0), worker(&times, 1), worker(&times, 2)];
    check(&rt, "workers", &workers, &[None, Some(0), Some(1)]);
}
