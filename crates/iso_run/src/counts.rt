//! How far a run has come, counted while it goes on.

use iso_lifecycle::gate::Gate;
use iso_lifecycle::kind::BodyKind;
use iso_plan::plan::Plan;
use std::alloc::{AllocError, Global};
use std::fmt;
use std::sync::atomic::{AtomicU32, Ordering};

/// What is counted of a run. Whoever looks while bodies begin and end may find one number a moment
/// older than another.
#[derive(Drop)]
pub(crate) struct Counts {
    /// The tests of the plan; none as long as there is no plan.
    all: AtomicU32,
    /// The tests that are over: they ended, or are descendants of a class that wasn't opened.
    over: AtomicU32,
    /// The bodies that are under way, those of classes too.
    running: AtomicU32,
    /// The tests that ended by a fail or a fault.
    not_ok: AtomicU32,
}

impl Counts {
    /// Of a run that hasn't begun.
    pub fn new() -> Counts {
        Counts {
            all: AtomicU32::new(0),
            over: AtomicU32::new(0),
            running: AtomicU32::new(0),
            not_ok: AtomicU32::new(0),
        }
    }

    /// A test has ended, and well or not.
    fn test(&self, well: bool) {
        if !well {
            self.not_ok.fetch_add(1, Ordering::SeqCst);
        }
        self.over.fetch_add(1, Ordering::SeqCst);
    }

    /// How far the run has come now, if it has begun.
    pub fn line(&self) -> Option<Line> {
        match self.all.load(Ordering::SeqCst) {
            0 => None,
            all => Some(Line {
                over: self.over.load(Ordering::SeqCst),
                all,
                running: self.running.load(Ordering::SeqCst),
                not_ok: self.not_ok.load(Ordering::SeqCst),
            }),
        }
    }
}

/// The line that tells how far a run has come.
#[derive(Clone, Copy)]
pub(crate) struct Line {
    over: u32,
    all: u32,
    running: u32,
    not_ok: u32,
}

impl fmt::Display for Line {
    fn fmt<W: fmt::Write>(&self, f: &mut fmt::Formatter<W>) -> fmt::Result {
        let Line {
            over,
            all,
            running,
            not_ok,
        } = *self;
        write!(
            f,
            "{over} of {all} tests, {running} running, {not_ok} not ok"
        )
    }
}

/// Counts the bodies of a plan.
#[derive(Drop)]
struct Counter<'g> {
    counts: &'g Counts,
    /// How many tests are descendants of each class, by its number; of the root all are.
    tests: Vec<u32>,
}

impl<'g> Counter<'g> {
    /// Of a run that begins.
    fn new(alloc: Global, plan: &Plan, counts: &'g Counts) -> Result<Counter<'g>, AllocError> {
        let counter = Counter {
            counts,
            tests: tests_in(alloc, plan)?,
        };
        counts.all.store(counter.tests_of(0), Ordering::SeqCst);
        Ok(counter)
    }

    /// A body begins.
    fn begin(&self) {
        self.counts.running.fetch_add(1, Ordering::SeqCst);
    }

    /// A body of a node has ended, and well or not. Where it was to open a class and didn't,
    /// nothing runs of what stands there.
    fn end(&self, node: u32, kind: BodyKind, well: bool) {
        match kind {
            BodyKind::Test => self.counts.test(well),
            BodyKind::BeforeAll => {
                if !well {
                    let tests = self.tests_of(node);
                    self.counts.over.fetch_add(tests, Ordering::SeqCst);
                }
            }
            BodyKind::AfterAll => {}
        }
        self.counts.running.fetch_sub(1, Ordering::SeqCst);
    }

    /// How many tests are descendants of a class.
    fn tests_of(&self, class: u32) -> u32 {
        match self.tests.get(class as usize) {
            Some(tests) => *tests,
            None => 0,
        }
    }
}

/// How many tests are descendants of each class of a plan, and of its root.
fn tests_in(alloc: Global, plan: &Plan) -> Result<Vec<u32>, AllocError> {
    let mut tests = vec![in alloc; 0u32; plan.len() as usize]?;
    // A class has a smaller number than its descendants: what is handed up is whole by then.
    for node in (0..plan.len()).rev() {
        let own = if plan.is_test(node) {
            1
        } else {
            tests.get(node as usize).copied().unwrap_or(0)
        };
        if let Some(parent) = plan.parent(node) {
            if let Some(count) = tests.get_mut(parent as usize) {
                *count = count.saturating_add(own);
            }
        }
    }
    Ok(tests)
}

/// A gate that counts how far a run has come, if that is shown, and is another gate for all else.
#[derive(Drop)]
pub(crate) struct CountingGate<'g, G> {
    inner: &'g G,
    counter: Option<Counter<'g>>,
}

impl<'g, G: Gate> CountingGate<'g, G> {
    /// A gate for a run of a plan that begins, which counts there, if memory is left for it.
    pub fn new(
        alloc: Global,
        inner: &'g G,
        plan: &Plan,
        counts: Option<&'g Counts>,
    ) -> CountingGate<'g, G> {
        let counter = match counts {
            Some(counts) => Counter::new(alloc, plan, counts).ok(),
            None => None,
        };
        CountingGate { inner, counter }
    }
}

impl<G: Gate> Gate for CountingGate<'_, G> {
    fn at_body(&self, worker: u32, node: u32) {
        self.inner.at_body(worker, node);
    }

    fn begins(&self, worker: u32, node: u32, kind: BodyKind) {
        if let Some(counter) = &self.counter {
            counter.begin();
        }
        self.inner.begins(worker, node, kind);
    }

    fn ends(&self, worker: u32, node: u32, kind: BodyKind, well: bool) {
        self.inner.ends(worker, node, kind, well);
        if let Some(counter) = &self.counter {
            counter.end(node, kind, well);
        }
    }
}
