//! Gates at which bodies meet, are held, or rest. No call waits without end: each gives up after
//! a number of turns of a millisecond.
use crate::crew::Beside;
use iso_floor::floor::Floor;
use iso_floor::ground::Ground;
use iso_lifecycle::gate::Gate;
use std::alloc::Global;
use std::rt::Clock;
use std::sync::Wait;
use std::sync::atomic::{AtomicU64, Ordering};
use std::thread;
use std::time::Duration;

/// Five seconds: what comes at all has come by then.
pub(crate) const LONG: u32 = 5_000;

/// The two nodes that meet.
const FIRST: u32 = 2;

const SECOND: u32 = 3;

/// Whether a number is reached before the turns are used up.
fn reaches<C: Clock>(clock: &C, turns: u32, number: &AtomicU64, goal: u64) -> bool {
    for _ in 0..turns {
        if number.load(Ordering::SeqCst) >= goal {
            return true;
        }
        let _ = thread::sleep(clock, Duration::from_millis(1));
    }
    false
}

/// Holds each of two nodes at its kth call until the other one has made its kth.
#[derive(Drop)]
pub(crate) struct Meeting<'r, C: Clock> {
    clock: &'r C,
    turns: u32,
    /// The calls that each node has made.
    first: AtomicU64,
    second: AtomicU64,
    /// How many calls were given up.
    late: AtomicU64,
    /// How many bodies are in the gate, and how often one came in while the other one was there.
    inside: AtomicU64,
    together: AtomicU64,
}

impl<'r, C: Clock> Meeting<'r, C> {
    /// A gate to which nobody has come.
    pub(crate) fn new(clock: &'r C, turns: u32) -> Meeting<'r, C> {
        Meeting {
            clock,
            turns,
            first: AtomicU64::new(0),
            second: AtomicU64::new(0),
            late: AtomicU64::new(0),
            inside: AtomicU64::new(0),
            together: AtomicU64::new(0),
        }
    }

    /// The calls of each of the two nodes, and how many of them were given up.
    pub(crate) fn calls(&self) -> [u64; 3] {
        [
            self.first.load(Ordering::SeqCst),
            self.second.load(Ordering::SeqCst),
            self.late.load(Ordering::SeqCst),
        ]
    }

    /// How often a body came in while the other one was there.
    pub(crate) fn together(&self) -> u64 {
        self.together.load(Ordering::SeqCst)
    }

    /// A call of one of the two nodes.
    fn meet(&self, own: &AtomicU64, other: &AtomicU64) {
        if self.inside.fetch_add(1, Ordering::SeqCst) > 0 {
            self.together.fetch_add(1, Ordering::SeqCst);
        }
        let call = own.fetch_add(1, Ordering::SeqCst).saturating_add(1);
        if !reaches(self.clock, self.turns, other, call) {
            self.late.fetch_add(1, Ordering::SeqCst);
        }
        self.inside.fetch_sub(1, Ordering::SeqCst);
    }
}

impl<C: Clock> Gate for Meeting<'_, C> {
    fn at_body(&self, _worker: u32, node: u32) {
        match node {
            FIRST => self.meet(&self.first, &self.second),
            SECOND => self.meet(&self.second, &self.first),
            _ => {}
        }
    }
}

/// Holds the bodies of node 2, or of nodes 2 and 3, until it is opened.
#[derive(Drop)]
pub(crate) struct Holding<'r, C: Clock> {
    clock: &'r C,
    both: bool,
    /// How many calls have come, and how many of them were given up.
    come: AtomicU64,
    late: AtomicU64,
    open: AtomicU64,
}

impl<'r, C: Clock> Holding<'r, C> {
    /// A gate to which nobody has come, for both nodes or the first alone.
    pub(crate) fn new(clock: &'r C, both: bool) -> Holding<'r, C> {
        Holding {
            clock,
            both,
            come: AtomicU64::new(0),
            late: AtomicU64::new(0),
            open: AtomicU64::new(0),
        }
    }

    /// How many calls were given up, since nobody opened the gate.
    pub(crate) fn late(&self) -> u64 {
        self.late.load(Ordering::SeqCst)
    }

    /// Lets all bodies go on.
    fn open(&self) {
        self.open.store(1, Ordering::SeqCst);
    }
}

impl<C: Clock> Gate for Holding<'_, C> {
    fn at_body(&self, _worker: u32, node: u32) {
        if node == FIRST || self.both && node == SECOND {
            self.come.fetch_add(1, Ordering::SeqCst);
            if !reaches(self.clock, LONG, &self.open, 1) {
                self.late.fetch_add(1, Ordering::SeqCst);
            }
        }
    }
}

/// Opens a gate once the floor's history is longer than a number of events.
#[derive(Drop)]
pub(crate) struct Watcher<'h, 'r, C: Clock> {
    gate: &'h Holding<'r, C>,
    events: u64,
    /// The length that the floor has told of.
    told: AtomicU64,
}

impl<'h, 'r, C: Clock> Watcher<'h, 'r, C> {
    pub(crate) fn new(gate: &'h Holding<'r, C>, events: u64) -> Watcher<'h, 'r, C> {
        Watcher {
            gate,
            events,
            told: AtomicU64::new(0),
        }
    }

    /// The length that the floor has told of.
    pub(crate) fn told(&self) -> u64 {
        self.told.load(Ordering::SeqCst)
    }
}

impl<C: Clock> Beside for Watcher<'_, '_, C> {
    fn act<G: Ground, R: Wait>(&self, rt: &R, floor: &Floor<'_, G>) {
        let length = floor.wait_change(rt, self.events);
        self.told.store(length, Ordering::SeqCst);
        self.gate.open();
    }
}

/// Sits down as a third worker while two bodies stand in a gate, stops the floor, and then opens
/// the gate.
#[derive(Drop)]
pub(crate) struct Stopper<'h, 'r, C: Clock> {
    alloc: Global,
    gate: &'h Holding<'r, C>,
    /// The length of the history that the floor has told of after the stop.
    told: AtomicU64,
}

impl<'h, 'r, C: Clock> Stopper<'h, 'r, C> {
    pub(crate) fn new(alloc: Global, gate: &'h Holding<'r, C>) -> Stopper<'h, 'r, C> {
        Stopper {
            alloc,
            gate,
            told: AtomicU64::new(0),
        }
    }

    /// The length that the floor has told of after the stop.
    pub(crate) fn told(&self) -> u64 {
        self.told.load(Ordering::SeqCst)
    }
}

impl<C: Clock> Beside for Stopper<'_, '_, C> {
    fn act<G: Ground, R: Wait>(&self, rt: &R, floor: &Floor<'_, G>) {
        let come = reaches(self.gate.clock, LONG, &self.gate.come, 2);
        if come && floor.seat(rt, self.alloc, 2).is_ok() {
            floor.stop(rt);
            self.told.store(floor.wait_change(rt, 0), Ordering::SeqCst);
        }
        self.gate.open();
    }
}

/// Lets some calls rest for a moment, so that bodies mix.
#[derive(Drop)]
pub(crate) struct Pauses<'r, C: Clock> {
    clock: &'r C,
    calls: AtomicU64,
}

impl<'r, C: Clock> Pauses<'r, C> {
    /// A gate to which nobody has come.
    pub(crate) fn new(clock: &'r C) -> Pauses<'r, C> {
        Pauses {
            clock,
            calls: AtomicU64::new(0),
        }
    }
}

impl<C: Clock> Gate for Pauses<'_, C> {
    fn at_body(&self, _worker: u32, _node: u32) {
        let call = self.calls.fetch_add(1, Ordering::SeqCst);
        if call % 3 == 0 {
            let _ = thread::sleep(self.clock, Duration::from_micros(call % 7 * 50));
        }
    }
}
