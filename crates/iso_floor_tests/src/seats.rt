//! Seats, and waiting for a change.
use crate::by_hand::{enter_class, opened_seat, sit_down};
use crate::shared::check;
use crate::site::{Play, Site, play_script};
use crate::suites::A_AND_B;
use iso_floor::fault::SeatFault;
use iso_floor::floor::Floor;
use iso_floor::ground::Ground;
use iso_floor::seat::Seat;
use iso_floor::work::{Cause, work};
use iso_lifecycle::gate::OpenGate;
use std::alloc::Global;
use std::process::Abort;
use std::sync::Wait;

/// The workers who sit down one after the other, and why there is no seat for them.
static SITTING: [(u32, Option<SeatFault>); 4] = [
    (0, None),
    (0, Some(SeatFault::Taken)),
    (2, Some(SeatFault::NoWorker)),
    (1, None),
];

/// Why there is no seat for a worker.
fn fault_of<G: Ground, R: Wait>(
    rt: &R,
    alloc: Global,
    floor: &Floor<'_, G>,
    worker: u32,
) -> Option<SeatFault> {
    match floor.seat(rt, alloc, worker) {
        Ok(_) => None,
        Err(fault) => Some(fault),
    }
}

/// A worker of two sits down once, also when its seat is gone, and a third one never.
struct SitOnce;

impl Play for SitOnce {
    fn play<G: Ground, R: Abort + Wait>(&self, rt: &R, alloc: Global, site: &Site<'_, G>) {
        let floor = site.floor(rt, alloc);
        for (worker, fault) in SITTING.as_slice() {
            let found = fault_of(rt, alloc, &floor, *worker);
            check(rt, "why there is no seat", &found, fault);
        }
    }
}

#[test]
fn each_worker_sits_down_once(rt: HostRuntime) {
    play_script(&rt, rt.alloc(), A_AND_B, 2, &SitOnce);
}

/// How many events were seen before each wait after the stop.
static SEEN: [u64; 4] = [0, 1, 7, u64::MAX];

/// A wait for more than nothing ends after one event, and every wait after a stop.
struct WaitEnds;

impl Play for WaitEnds {
    fn play<G: Ground, R: Abort + Wait>(&self, rt: &R, alloc: Global, site: &Site<'_, G>) {
        let floor = site.floor(rt, alloc);
        let _seat = entered_seat(rt, alloc, &floor);
        expect_length(rt, &floor, 0);
        floor.stop(rt);
        expect_lengths(rt, &floor);
    }
}

/// The seat of the first worker, who has entered the class and done its body.
fn entered_seat<'a, G: Ground, R: Abort + Wait>(
    rt: &R,
    alloc: Global,
    floor: &Floor<'a, G>,
) -> Seat<'a, G> {
    let mut seat = sit_down(rt, alloc, floor, 0);
    let done = enter_class(rt, alloc, floor, &mut seat);
    check(rt, "the node", &done.node(), &1);
    seat
}

/// Every wait tells of one event, whatever was seen.
fn expect_lengths<G: Ground, R: Abort + Wait>(rt: &R, floor: &Floor<'_, G>) {
    for seen in SEEN.as_slice() {
        expect_length(rt, floor, *seen);
    }
}

/// A wait for more than `seen` events tells of one.
fn expect_length<G: Ground, R: Abort + Wait>(rt: &R, floor: &Floor<'_, G>, seen: u64) {
    assert_eq!(rt; floor.wait_change(rt, seen), 1, "after {seen}");
}

#[test]
fn wait_ends_after_an_event_and_after_a_stop(rt: HostRuntime) {
    play_script(&rt, rt.alloc(), A_AND_B, 2, &WaitEnds);
}

/// A worker whose tray has a node is a stranger, also where it has booked what it did; it stops the
/// run.
struct LentSeat;

impl Play for LentSeat {
    fn play<G: Ground, R: Abort + Wait>(&self, rt: &R, alloc: Global, site: &Site<'_, G>) {
        let floor = site.floor(rt, alloc);
        let seat = opened_seat(rt, alloc, &floor);
        expect_stopped(rt, alloc, &floor, seat);
        let other = sit_down(rt, alloc, &floor, 1);
        expect_stopped(rt, alloc, &floor, other);
    }
}

/// The worker of a seat ends since the run is stopped.
fn expect_stopped<'a, G: Ground, R: Abort + Wait>(
    rt: &R,
    alloc: Global,
    floor: &Floor<'a, G>,
    seat: Seat<'a, G>,
) {
    let end = work(rt, alloc, floor, seat, &OpenGate);
    check(rt, "why a worker ended", &end.cause, &Cause::Stopped);
}

#[test]
fn worker_with_a_lent_node_stops(rt: HostRuntime) {
    play_script(&rt, rt.alloc(), A_AND_B, 2, &LentSeat);
}
