//! The times of a run's bodies, once it has ended.
ghost use Rattle.std.specs.Prelude.{◌≡◌, IfOk};
ghost use Rattle.std.specs.Option.{option_map};
ghost use Rattle.iso_times.specs.Tables.{earlier, first_begin, micros, micros_of, node_time, since, time_in, times_by_node, took};

use crate::table::slot_of;
use iso_lifecycle::kind::BodyKind;
use std::alloc::{AllocError, Global};
use std::marker::Model;

/// When a body began and ended, in nanoseconds, and its worker.
#[derive(Clone, Copy)]
pub struct BodyTime {
    pub worker: u32,
    pub begin: u64,
    pub end: u64,
}

impl BodyTime {
    /// The same, counted from a moment.
    fn since(self, first: u64) -> BodyTime
        ensures { result ≡ since first self }
    {
        BodyTime {
            worker: self.worker,
            begin: self.begin.saturating_sub(first),
            end: self.end.saturating_sub(first),
        }
    }

    /// How long the body took, in whole microseconds.
    pub fn micros(self) -> u64
        ensures { result ≡ took self }
    {
        self.end.saturating_sub(self.begin) / 1_000
    }
}

/// The times of a run's bodies.
///
/// Contracts see them in the order of the nodes, two for each, as they were kept: none of a body
/// that didn't run or didn't end, or at whose begin or end the clock failed.
pub struct Times {
    bodies: Vec<Option<BodyTime>>,
    first: u64,
}

impl Drop for Times {
    fn drop(self) {
        let Times {
            bodies: _,
            first: _,
        } = self;
    }
}

impl Model for Times {
    ghost use Rattle.std.specs.Prelude.{◌≡◌, List, Option};
    ghost use Rattle.iso_times.specs.Tables.{first_begin};
    ghost use Rattle.iso_times.specs.declared.times.BodyTime.{BodyTime};

    ghost Value = { List (Option BodyTime) };

    ghost view = { λ t. t.bodies.items };

    ghost invariant = { λ t. t.first ≡ first_begin t.bodies.items };
}

impl Times {
    /// These times.
    pub(crate) fn of(bodies: Vec<Option<BodyTime>>) -> Times
        ensures { result ≡ bodies.items }
    {
        let first = first_begin(&bodies);
        Times { bodies, first }
    }

    /// The time of a node's body, in nanoseconds from the first begin of all.
    pub fn body(&self, node: u32, kind: BodyKind) -> Option<BodyTime>
        ensures { result ≡ option_map (since (first_begin self.now)) (time_in self.now node kind) }
    {
        let time = self.kept(node, kind)?;
        Some(time.since(self.first))
    }

    /// How many microseconds the bodies of a node took: a test's, or a class's own two.
    pub fn micros(&self, node: u32) -> u64
        ensures { result ≡ micros_of self.now node }
    {
        micros(self.kept(node, BodyKind::BeforeAll)) + micros(self.kept(node, BodyKind::AfterAll))
    }

    /// How many microseconds the bodies of each of `nodes` nodes took, by the nodes' numbers; none
    /// of a node none of whose bodies has a time.
    pub fn by_node(&self, alloc: Global, nodes: u32) -> Result<Vec<Option<u64>>, AllocError>
        ensures { IfOk result (λ v. v.items ≡ times_by_node self.now nodes) }
    {
        let mut times = Vec::with_capacity(alloc, nodes as usize)?;
        'nodes: for node in 0..nodes {
            times.push(self.node(node))?;
        }
        Ok(times)
    }

    /// How many microseconds the bodies of a node took; none where none of them has a time.
    fn node(&self, node: u32) -> Option<u64>
        ensures { result ≡ node_time self.now node }
    {
        let opening = self.kept(node, BodyKind::BeforeAll);
        let closing = self.kept(node, BodyKind::AfterAll);
        if opening.is_some() || closing.is_some() {
            Some(micros(opening) + micros(closing))
        } else {
            None
        }
    }

    /// The time of a node's body, as it was kept.
    fn kept(&self, node: u32, kind: BodyKind) -> Option<BodyTime>
        ensures { result ≡ time_in self.now node kind }
    {
        *self.bodies.get(slot_of(node, kind))?
    }
}

/// How many microseconds a body took that has a time.
fn micros(time: Option<BodyTime>) -> u64
    ensures { result ≡ micros time }
{
    match time {
        Some(time) => time.micros(),
        None => 0,
    }
}

/// The first begin of bodies; the largest number where none has a time.
fn first_begin(bodies: &[Option<BodyTime>]) -> u64
    ensures { result ≡ first_begin bodies.now }
{
    let mut first = u64::MAX;
    'bodies: for body in bodies {
        first = earlier(*body, first);
    }
    first
}

/// The earlier of a body's begin and another moment.
fn earlier(body: Option<BodyTime>, at: u64) -> u64
    ensures { result ≡ earlier body at }
{
    match body {
        Some(time) => time.begin.min(at),
        None => at,
    }
}
