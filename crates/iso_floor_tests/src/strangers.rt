//! Seats of another floor of the same ground.
use crate::by_hand::opened_seat;
use crate::reports::expect_no_book;
use crate::site::{Play, Site, play_script};
use crate::suites::A_AND_B;
use iso_floor::fault::CloseFault;
use iso_floor::ground::Ground;
use std::alloc::Global;
use std::process::Abort;
use std::sync::Wait;

/// What another floor receipted is lost on one that has no such Leave.
struct LostAlone;

impl Play for LostAlone {
    fn play<G: Ground, R: Abort + Wait>(&self, rt: &R, alloc: Global, site: &Site<'_, G>) {
        let other = site.floor(rt, alloc);
        let foreign = opened_seat(rt, alloc, &other);
        let floor = site.floor(rt, alloc);
        let seats = vec![in alloc; foreign].expect(rt, "memory");
        expect_no_book(rt, alloc, floor, seats, CloseFault::Lost(1));
    }
}

#[test]
fn receipt_of_another_floor_is_lost(rt: HostRuntime) {
    play_script(&rt, rt.alloc(), A_AND_B, 2, &LostAlone);
}

/// Nor does it stand beside the floor's own.
struct LostBeside;

impl Play for LostBeside {
    fn play<G: Ground, R: Abort + Wait>(&self, rt: &R, alloc: Global, site: &Site<'_, G>) {
        let other = site.floor(rt, alloc);
        let foreign = opened_seat(rt, alloc, &other);
        let floor = site.floor(rt, alloc);
        let own = opened_seat(rt, alloc, &floor);
        let seats = vec![in alloc; own, foreign].expect(rt, "memory");
        expect_no_book(rt, alloc, floor, seats, CloseFault::Lost(1));
    }
}

#[test]
fn receipt_of_another_floor_is_lost_beside_its_like(rt: HostRuntime) {
    play_script(&rt, rt.alloc(), A_AND_B, 2, &LostBeside);
}
