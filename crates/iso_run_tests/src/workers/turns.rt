//! The three teams by two workers who take turns, step by step.
use super::expect_report;
use crate::suites::{TWO_WORKERS, expect};
use iso_lifecycle::gate::Gate;
use iso_run::inputs::Inputs;
use iso_teams::{OPS, ORDERS, REPORT, SHOP, WORLD};
use std::rt::Clock;
use std::sync::atomic::{AtomicU64, Ordering};
use std::thread;
use std::time::Duration;

/// How many milliseconds a worker waits for the other one, who may have nothing to do.
const PATIENCE: u32 = 200;

/// A gate at which two workers take turns: who was here last waits until the other one has been, or
/// its patience ends.
#[derive(Drop)]
struct Turns<'a, C: Clock> {
    clock: &'a C,
    /// Who was here last, counted from one.
    last: AtomicU64,
    /// How often a worker came after the other one.
    taken: AtomicU64,
}

impl<'a, C: Clock> Turns<'a, C> {
    /// A gate to which nobody has come.
    fn new(clock: &'a C) -> Turns<'a, C> {
        Turns {
            clock,
            last: AtomicU64::new(0),
            taken: AtomicU64::new(0),
        }
    }

    /// Waits for the turn of a worker, and takes it.
    fn take(&self, own: u64) {
        for _ in 0..PATIENCE {
            if self.last.load(Ordering::SeqCst) != own {
                break;
            }
            let _ = thread::sleep(self.clock, Duration::from_millis(1));
        }
        if self.last.swap(own, Ordering::SeqCst) != own {
            self.taken.fetch_add(1, Ordering::SeqCst);
        }
    }

    /// How often a worker came after the other one.
    fn taken(&self) -> u64 {
        self.taken.load(Ordering::SeqCst)
    }
}

impl<C: Clock> Gate for Turns<'_, C> {
    fn at_body(&self, worker: u32, _node: u32) {
        self.take(u64::from(worker) + 1);
    }
}

#[test]
fn three_teams_are_reported_by_two_who_take_turns(rt: HostRuntime) {
    let gate = Turns::new(&rt);
    let inputs = Inputs {
        scripts: &[SHOP.as_bytes(), ORDERS.as_bytes(), OPS.as_bytes()],
        settings: TWO_WORKERS.as_bytes(),
        world: WORLD.as_bytes(),
        only: &[],
        patterns: &[],
        listed: None,
        shard: None,
        processors: 1,
    };
    expect_report(&rt, rt.alloc(), inputs, &gate, REPORT, false);
    // The first two classes of the first team don't conflict, and take some ten calls each.
    expect(&rt, gate.taken() >= 8, "too few turns");
}
