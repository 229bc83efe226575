//! The tests and classes of a run that were measured.
ghost use Rattle.std.specs.Prelude.{◌≡◌, ◌≤◌, IfOk, length, map};
ghost use Rattle.iso_durations.specs.Entries.{entry};
ghost use Rattle.iso_durations.specs.Orders.{first_of, slowest_first};
ghost use Rattle.iso_durations.specs.Times.{measured, micros};
ghost use Rattle.iso_plan.specs.RowView.{tree_of};

use crate::times::time;
use iso_plan::laws;
use iso_plan::plan::Plan;
use std::alloc::{AllocError, Global};
use std::cmp::Reverse;
use std::marker::Model;

/// A node, and how many microseconds its bodies took.
#[derive(Clone, Copy)]
pub(crate) struct Timed {
    pub(crate) micros: u64,
    pub(crate) node: u32,
}

/// Room for the times of nodes. It is made before a run, so that nothing grows after it. Contracts
/// see for how many nodes it is.
pub struct Durations {
    nodes: u32,
    room: Vec<Timed>,
}

impl Drop for Durations {
    fn drop(self) {
        let Durations { nodes: _, room: _ } = self;
    }
}

impl Model for Durations {
    ghost use Rattle.std.specs.Prelude.{◌≡◌, ◌≤◌, ℕ, [], vec_capacity};

    ghost Value = { ℕ };

    ghost view = { λ d. d.nodes };

    ghost invariant = { λ d. (d.room.items ≡ []) × (d.nodes ≤ vec_capacity d.room) };
}

impl Durations {
    /// Room for `nodes` nodes. It takes all memory that is wanted.
    pub fn new(alloc: Global, nodes: u32) -> Result<Durations, AllocError>
        ensures { IfOk result (λ d. d ≡ nodes) }
    {
        let room = Vec::with_capacity(alloc, nodes as usize)?;
        Ok(Durations { nodes, room })
    }

    /// The nodes that were measured, as they are written. It takes no memory.
    fn measured(self, plan: &Plan, times: &[Option<u64>]) -> Vec<Timed>
        requires { length plan.now.rows ≤ self }
        ensures { result.items ≡ map (entry (micros times.now))
            (measured (tree_of plan.now) times.now) }
    {
        laws::nodes_are_a_tree(plan);
        let Durations { nodes: _, room } = self;
        let mut timed = room;
        'nodes: for node in 1..plan.len() {
            if let Some(micros) = time(times, node) {
                timed.push_reserved(Timed { micros, node });
            }
        }
        timed
    }

    /// The nodes that were measured, slowest first. It takes no memory.
    pub(crate) fn slowest(self, plan: &Plan, times: &[Option<u64>]) -> Vec<Timed>
        requires { length plan.now.rows ≤ self }
        ensures { result.items ≡ map (entry (micros times.now))
            (slowest_first (micros times.now) (measured (tree_of plan.now) times.now)) }
    {
        let mut timed = self.measured(plan, times);
        timed.sort_unstable_by_key(|timed| (Reverse(timed.micros), timed.node));
        timed
    }
}

/// The first `most`, or all where this is 0.
pub(crate) fn first_of(timed: &[Timed], most: u32) -> &[Timed]
    ensures { result.now ≡ first_of most timed.now }
{
    if most == 0 || timed.len() <= most as usize {
        timed
    } else {
        &timed[..most as usize]
    }
}
