//! A floor that is stopped.
use crate::by_hand::{enter_class, refusal_of, sit_down};
use crate::reports::expect_no_book;
use crate::shared::check;
use crate::site::{Play, Site, play_script};
use crate::suites::A_AND_B;
use iso_floor::fault::CloseFault;
use iso_floor::floor::Floor;
use iso_floor::ground::Ground;
use iso_floor::seat::Seat;
use iso_standing::refused::{CoreFault, Refused};
use std::alloc::Global;
use std::process::Abort;
use std::sync::Wait;

/// A floor that was stopped refuses each event, hands back what a body came to, and with all seats
/// is unfinished.
struct RefuseAll;

impl Play for RefuseAll {
    fn play<G: Ground, R: Abort + Wait>(&self, rt: &R, alloc: Global, site: &Site<'_, G>) {
        let floor = site.floor(rt, alloc);
        let seat = stopped_seat(rt, alloc, &floor);
        let other = sit_down(rt, alloc, &floor, 1);
        let seats = vec![in alloc; seat, other].expect(rt, "memory");
        expect_no_book(rt, alloc, floor, seats, CloseFault::Unfinished);
    }
}

/// The seat of the first worker, who has entered the class and stopped the floor. Each event is
/// refused since, and what the Leave brought is handed back.
fn stopped_seat<'a, G: Ground, R: Abort + Wait>(
    rt: &R,
    alloc: Global,
    floor: &Floor<'a, G>,
) -> Seat<'a, G> {
    let mut seat = sit_down(rt, alloc, floor, 0);
    let done = enter_class(rt, alloc, floor, &mut seat);
    floor.stop(rt);
    let refusal = refusal_of(floor.leave(rt, &mut seat, done));
    check(rt, "a Leave", &refusal, &Some((Refused::Stopped, 1)));
    let stopped = Err(CoreFault::Refused(Refused::Stopped));
    check(rt, "an Enter", &floor.enter(rt, &mut seat, 2), &stopped);
    check(rt, "a Shut", &floor.shut(rt, &mut seat, 1), &stopped);
    seat
}

#[test]
fn stopped_floor_refuses_each_event(rt: HostRuntime) {
    play_script(&rt, rt.alloc(), A_AND_B, 2, &RefuseAll);
}
