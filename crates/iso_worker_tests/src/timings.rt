//! The times of bodies, as they were told.
use crate::clock::Readings;
use crate::shared::check;
use crate::suite::{read_plan, run_plan};
use iso_lifecycle::gate::OpenGate;
use iso_lifecycle::kind::BodyKind;
use iso_times::gate::TimesGate;
use iso_times::times::Times;
use std::alloc::Global;
use std::process::Abort;

/// A class of two tests: nodes 1, 2 and 3.
const TESTS: &str = "team shop
class C { test a { print \"1\"; } test b { print \"2\"; } }
";

/// The times of the bodies, by a clock that fails at one reading. Reading 0 is the gate's own, and
/// each body takes two.
fn times_by<R: Abort>(rt: &R, alloc: Global, fails: u64) -> Times {
    let clock = Readings::new(fails);
    let plan = read_plan(rt, alloc, TESTS);
    let gate = TimesGate::new(alloc, &clock, &OpenGate, plan.len()).expect(rt, "memory");
    run_plan(rt, alloc, &plan, &gate);
    gate.into_times()
}

/// When a node's body began and ended, in nanoseconds.
fn moments(times: &Times, node: u32, kind: BodyKind) -> Option<(u64, u64)> {
    let time = times.body(node, kind)?;
    Some((time.begin, time.end))
}

/// The moments of the class's two bodies, of the tests, and of bodies that there aren't.
fn found(times: &Times) -> [Option<(u64, u64)>; 6] {
    [
        moments(times, 1, BodyKind::BeforeAll),
        moments(times, 2, BodyKind::Test),
        moments(times, 3, BodyKind::Test),
        moments(times, 1, BodyKind::AfterAll),
        moments(times, 2, BodyKind::AfterAll),
        moments(times, 4, BodyKind::Test),
    ]
}

/// Counted from the first begin, each body begins and ends a reading after what was told before.
const ALL: [Option<(u64, u64)>; 6] = [
    Some((0, 1_000)),
    Some((2_000, 3_000)),
    Some((4_000, 5_000)),
    Some((6_000, 7_000)),
    None,
    None,
];

#[test]
fn bodies_have_the_times_at_which_they_were_told(rt: HostRuntime) {
    let times = times_by(&rt, rt.alloc(), u64::MAX);
    check(&rt, "times", &found(&times), &ALL);
    let micros = [times.micros(0), times.micros(1), times.micros(2)];
    check(&rt, "microseconds", &micros, &[0, 2, 1]);
}

/// Without the opening, whose begin has reading 1, the first begin is the first test's, of reading
/// 3.
const WITHOUT_THE_FIRST: [Option<(u64, u64)>; 6] = [
    None,
    Some((0, 1_000)),
    Some((2_000, 3_000)),
    Some((4_000, 5_000)),
    None,
    None,
];

#[test]
fn body_at_whose_begin_the_clock_fails_has_no_time(rt: HostRuntime) {
    let times = times_by(&rt, rt.alloc(), 1);
    check(&rt, "times", &found(&times), &WITHOUT_THE_FIRST);
}

#[test]
fn no_body_has_a_time_where_the_clock_fails_at_once(rt: HostRuntime) {
    let times = times_by(&rt, rt.alloc(), 0);
    check(&rt, "times", &found(&times), &[None; 6]);
}
