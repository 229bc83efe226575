//! Two tests at a gate: they meet there unless they write one key, and the closing of the floor
//! tells of all that they did.
use crate::crew::{Crew, Nothing, run_script, run_suite};
use crate::gates::{LONG, Meeting};
use crate::reports::{expect_events, expect_fault, expect_report, serial_report};
use crate::shared::{check, expect};
use crate::suites::{A_AND_B, READERS, RIVALS, read_suite};
use iso_floor::fault::CloseFault;
use iso_lifecycle::gate::Gate;
use std::alloc::Global;
use std::process::Abort;
use std::rt::Clock;
use std::sync::Wait;
use std::thread::Threads;

/// Two workers run a class of two tests at a gate. The floor hands out a whole book: an Enter and a
/// Leave of each test, an Enter, a Leave, a Shut and a Leave of the class, each Leave with its
/// receipt; and its report is that of the serial run.
fn expect_whole<R: Abort + Threads + Wait + Sync, T: Gate + Sync>(
    rt: &R,
    alloc: Global,
    script: &str,
    gate: &T,
) {
    let suite = read_suite(rt, alloc, script);
    let serial = serial_report(rt, alloc, &suite);
    let ran = run_suite(rt, alloc, &suite, Crew::of(2), gate, &Nothing);
    check(rt, "the receipts", &ran.receipts, &4);
    expect_events(rt, &ran.closed, 8);
    expect_report(rt, &ran.closed, &serial);
}

/// Each test has a call before its statement and one after it, and at each the two wait for one
/// another.
#[test]
fn two_tests_meet_at_each_step(rt: HostRuntime) {
    let meeting = Meeting::new(&rt, LONG);
    expect_whole(&rt, rt.alloc(), A_AND_B, &meeting);
    check(&rt, "the calls", &meeting.calls(), &[2, 2, 0]);
}

/// The one that is entered first waits in vain, and the other one finds it gone.
#[test]
fn two_tests_that_write_one_key_never_meet(rt: HostRuntime) {
    let meeting = Meeting::new(&rt, 50);
    expect_whole(&rt, rt.alloc(), RIVALS, &meeting);
    check(&rt, "the calls", &meeting.calls(), &[1, 1, 1]);
    check(&rt, "those together", &meeting.together(), &0);
}

/// So the gate does find two bodies together where nothing keeps them apart.
#[test]
fn two_tests_that_read_one_key_meet(rt: HostRuntime) {
    let meeting = Meeting::new(&rt, LONG);
    expect_whole(&rt, rt.alloc(), READERS, &meeting);
    check(&rt, "the calls", &meeting.calls(), &[1, 1, 0]);
    check(&rt, "those together", &meeting.together(), &1);
}

/// Two tests meet, and the seat at this place isn't handed in: its first receipt is lost.
fn expect_lost<R: Abort + Clock + Threads + Wait + Sync>(rt: &R, alloc: Global, place: usize) {
    let meeting = Meeting::new(rt, LONG);
    let crew = Crew {
        kept: Some(place),
        ..Crew::of(2)
    };
    let ran = run_script(rt, alloc, A_AND_B, crew, &meeting, &Nothing);
    let number = ran.kept.expect(rt, "a receipt");
    expect(rt, matches!(number, 1 | 4 | 5), "the number");
    expect_fault(rt, &ran.closed, CloseFault::Lost(number));
}

/// Since the tests meet, each worker leaves one of them: each seat has a receipt, and what is first
/// in it is the lowest that is lost. It is number 1 in the seat that opened the class, and in the
/// other one 4 or 5, after the Enters of both tests.
#[test]
fn first_receipt_of_a_seat_that_is_not_handed_in_is_lost(rt: HostRuntime) {
    expect_lost(&rt, rt.alloc(), 0);
    expect_lost(&rt, rt.alloc(), 1);
}
