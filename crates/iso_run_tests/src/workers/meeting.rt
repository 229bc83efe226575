//! Two tests whose bodies are under way at once.
use super::expect_report;
use crate::suites::{TWO_WORKERS, expect};
use iso_lifecycle::gate::Gate;
use iso_run::inputs::Inputs;
use std::rt::Clock;
use std::sync::atomic::{AtomicU64, Ordering};
use std::thread;
use std::time::Duration;

/// How many turns a worker waits for the other, a millisecond each.
const TURNS: u32 = 5_000;

/// A gate at which the workers of nodes 2 and 3 meet: at its kth call each waits until both have
/// made their kth, or its turns are used up.
#[derive(Drop)]
struct Meeting<'a, C: Clock> {
    clock: &'a C,
    second: AtomicU64,
    third: AtomicU64,
    /// How often a worker's turns were used up.
    missed: AtomicU64,
}

impl<'a, C: Clock> Meeting<'a, C> {
    /// A gate to which nobody has come.
    fn new(clock: &'a C) -> Meeting<'a, C> {
        Meeting {
            clock,
            second: AtomicU64::new(0),
            third: AtomicU64::new(0),
            missed: AtomicU64::new(0),
        }
    }

    /// Counts a call of one node, and waits for as many calls of the other.
    fn meet(&self, own: &AtomicU64, other: &AtomicU64) {
        let earlier = own.fetch_add(1, Ordering::SeqCst);
        for _ in 0..TURNS {
            if other.load(Ordering::SeqCst) > earlier {
                return;
            }
            let _ = thread::sleep(self.clock, Duration::from_millis(1));
        }
        self.missed.fetch_add(1, Ordering::SeqCst);
    }

    /// How many calls each node has made, and how often a worker's turns were used up.
    fn told(&self) -> [u64; 3] {
        [
            self.second.load(Ordering::SeqCst),
            self.third.load(Ordering::SeqCst),
            self.missed.load(Ordering::SeqCst),
        ]
    }
}

impl<C: Clock> Gate for Meeting<'_, C> {
    fn at_body(&self, _worker: u32, node: u32) {
        match node {
            2 => self.meet(&self.second, &self.third),
            3 => self.meet(&self.third, &self.second),
            _ => {}
        }
    }
}

/// Two bodies of two steps each.
const SCRIPT: &str = r#"team shop
class C { test a { print "1"; print "2"; } test b { print "3"; print "4"; } }
"#;

const REPORT: &str = r#"TAP version 14
1..1
# Subtest: shop.C
    1..2
    ok 1 - a
      ---
      verdict: pass
      output:
        - "1"
        - "2"
      ...
    ok 2 - b
      ---
      verdict: pass
      output:
        - "3"
        - "4"
      ...
ok 1 - shop.C
"#;

/// Each worker comes to the gate before the first step of its body and after each of the two.
#[test]
fn two_bodies_are_under_way_at_once(rt: HostRuntime) {
    let gate = Meeting::new(&rt);
    let inputs = Inputs {
        scripts: &[SCRIPT.as_bytes()],
        settings: TWO_WORKERS.as_bytes(),
        world: &[],
        only: &[],
        patterns: &[],
        listed: None,
        shard: None,
        processors: 1,
    };
    expect_report(&rt, rt.alloc(), inputs, &gate, REPORT, true);
    expect(
        &rt,
        gate.told() == [3, 3, 0],
        "they didn't meet at each step",
    );
}
