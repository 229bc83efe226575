//! What a gate is told of bodies.
use crate::shared::check;
use crate::suite::{read_plan, run_plan};
use iso_lifecycle::gate::Gate;
use iso_lifecycle::kind::BodyKind;
use std::sync::atomic::{AtomicU64, Ordering};

/// A class whose blocks have a statement each, and two tests, of which one fails in its first.
const BODIES: &str = "team shop
class C {
  before_all { print \"opened\"; }
  after_all { print \"closed\"; }
  test a { print \"1\"; print \"2\"; }
  test b { fail \"no\"; }
}
";

/// Notes what it is told by one worker, whose bodies come one after another.
#[derive(Drop)]
struct Notes {
    /// The node whose body is under way, or 0.
    under_way: AtomicU64,
    /// How often the gate was met outside a body and inside one.
    outside: AtomicU64,
    inside: AtomicU64,
    /// How many bodies began, how many ended, and how many of these well.
    begun: AtomicU64,
    ended: AtomicU64,
    well: AtomicU64,
    /// How often a body began inside another, or another ended than had begun.
    wrong: AtomicU64,
}

impl Notes {
    /// Nothing was told.
    fn new() -> Notes {
        Notes {
            under_way: AtomicU64::new(0),
            outside: AtomicU64::new(0),
            inside: AtomicU64::new(0),
            begun: AtomicU64::new(0),
            ended: AtomicU64::new(0),
            well: AtomicU64::new(0),
            wrong: AtomicU64::new(0),
        }
    }

    /// Sets the node whose body is under way, in place of another.
    fn turn(&self, from: u64, to: u64) {
        if self.under_way.swap(to, Ordering::SeqCst) != from {
            count(&self.wrong);
        }
    }

    /// How often each of these was told, in their order.
    fn told(&self) -> [u64; 6] {
        [
            self.outside.load(Ordering::SeqCst),
            self.inside.load(Ordering::SeqCst),
            self.begun.load(Ordering::SeqCst),
            self.ended.load(Ordering::SeqCst),
            self.well.load(Ordering::SeqCst),
            self.wrong.load(Ordering::SeqCst),
        ]
    }
}

/// One more.
fn count(number: &AtomicU64) {
    number.fetch_add(1, Ordering::SeqCst);
}

impl Gate for Notes {
    fn at_body(&self, _worker: u32, node: u32) {
        match self.under_way.load(Ordering::SeqCst) {
            0 => count(&self.outside),
            other if other == u64::from(node) => count(&self.inside),
            _ => count(&self.wrong),
        }
    }

    fn begins(&self, _worker: u32, node: u32, _kind: BodyKind) {
        self.turn(0, u64::from(node));
        count(&self.begun);
    }

    fn ends(&self, _worker: u32, node: u32, _kind: BodyKind, well: bool) {
        self.turn(u64::from(node), 0);
        count(&self.ended);
        if well {
            count(&self.well);
        }
    }
}

/// What is told of the four bodies: each is met once outside, and inside after each of the five
/// statements, which are a step each.
const TOLD: [u64; 6] = [4, 5, 4, 4, 3, 0];

#[test]
fn gate_is_told_of_each_body_before_and_after_its_steps(rt: HostRuntime) {
    let plan = read_plan(&rt, rt.alloc(), BODIES);
    let notes = Notes::new();
    run_plan(&rt, rt.alloc(), &plan, &notes);
    check(&rt, "what was told", &notes.told(), &TOLD);
}
