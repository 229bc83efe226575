//! A gate that keeps the times of bodies.
ghost use Rattle.std.specs.Prelude.{◌≡◌, ◌*◌, IfOk, length};

use crate::table::Table;
use crate::times::Times;
use iso_lifecycle::gate::Gate;
use iso_lifecycle::kind::BodyKind;
use std::alloc::{AllocError, Global};
use std::marker::Model;
use std::rt::Clock;
use std::time::Instant;

/// A gate that keeps when each body begins and ends, by a clock, and is another gate for all else.
/// It takes no lock and, once it is made, no memory. A body has no time where the clock fails at
/// its begin or end; where it fails as the gate is made, none has. Contracts see for how many nodes
/// it is.
#[derive(Drop)]
pub struct TimesGate<'g, C, G> {
    clock: &'g C,
    inner: &'g G,
    start: Option<Instant>,
    table: Table,
}

impl<'g, C, G> Model for TimesGate<'g, C, G> {
    ghost use Rattle.std.specs.Prelude.{ℕ};

    ghost Value = { ℕ };

    ghost view = { λ g. g.table };
}

impl<'g, C: Clock, G: Gate> TimesGate<'g, C, G> {
    /// A gate for a run of a plan of `nodes` nodes.
    pub fn new(
        alloc: Global,
        clock: &'g C,
        inner: &'g G,
        nodes: u32,
    ) -> Result<TimesGate<'g, C, G>, AllocError>
        ensures { IfOk result (λ g. g ≡ nodes) }
    {
        let table = Table::new(alloc, nodes)?;
        Ok(TimesGate {
            clock,
            inner,
            start: now(clock),
            table,
        })
    }

    /// A gate that keeps no times and never reads the clock. It takes no memory.
    pub fn untimed(alloc: Global, clock: &'g C, inner: &'g G) -> TimesGate<'g, C, G>
        ensures { result ≡ 0 }
    {
        TimesGate {
            clock,
            inner,
            start: None,
            table: Table::empty(alloc),
        }
    }

    /// The times that were kept: none of a gate that keeps no times. It takes no memory.
    pub fn into_times(self) -> Times
        ensures { length result ≡ 2 * self.entry }
    {
        self.table.into_times()
    }

    /// How many nanoseconds have passed since the gate was made. None where a clock failed, or
    /// after 584 years.
    fn nanos(&self) -> Option<u64> {
        let passed = now(self.clock)?.duration_since(self.start?);
        u64::try_from(passed.as_nanos()).ok()
    }
}

impl<C: Clock, G: Gate> Gate for TimesGate<'_, C, G> {
    fn at_body(&self, worker: u32, node: u32) {
        self.inner.at_body(worker, node);
    }

    fn begins(&self, worker: u32, node: u32, kind: BodyKind) {
        self.inner.begins(worker, node, kind);
        if let Some(cell) = self.table.cell(node, kind) {
            cell.begin(worker, self.nanos());
        }
    }

    fn ends(&self, worker: u32, node: u32, kind: BodyKind, well: bool) {
        if let Some(cell) = self.table.cell(node, kind) {
            cell.end(self.nanos());
        }
        self.inner.ends(worker, node, kind, well);
    }
}

/// What a clock reads; none where it fails.
fn now<C: Clock>(clock: &C) -> Option<Instant> {
    match Instant::now(clock) {
        Ok(now) => Some(now),
        Err(_) => None,
    }
}
