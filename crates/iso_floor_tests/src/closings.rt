//! What the closing of a floor answers before the run's end.
use crate::by_hand::opened_seat;
use crate::reports::expect_no_book;
use crate::site::{Play, Site, play_script};
use crate::suites::A_AND_B;
use iso_floor::fault::CloseFault;
use iso_floor::ground::Ground;
use std::alloc::Global;
use std::process::Abort;
use std::sync::Wait;

/// A class that was opened and never shut isn't finished.
struct LeaveOpen;

impl Play for LeaveOpen {
    fn play<G: Ground, R: Abort + Wait>(&self, rt: &R, alloc: Global, site: &Site<'_, G>) {
        let floor = site.floor(rt, alloc);
        let seat = opened_seat(rt, alloc, &floor);
        let seats = vec![in alloc; seat].expect(rt, "memory");
        expect_no_book(rt, alloc, floor, seats, CloseFault::Unfinished);
    }
}

#[test]
fn class_that_is_not_shut_is_unfinished(rt: HostRuntime) {
    play_script(&rt, rt.alloc(), A_AND_B, 2, &LeaveOpen);
}
