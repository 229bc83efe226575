//! Keys on which nodes conflict, kept for nodes that take the same keys.
ghost use Rattle.std.specs.Prelude.{◌≡◌, ◌<◌, IfOk, length, slice_index_or};
ghost use Rattle.iso_plan.specs.Locks.{conflict};
ghost use Rattle.iso_plan.specs.RowView.{tree_of};
ghost use Rattle.iso_waits.specs.ContendedKeys.{contended_key};
ghost use Rattle.iso_waits.specs.KnownKeys.{AreKnownKeys};

use crate::firsts::firsts;
use crate::key::contended_key;
use iso_plan::plan::Plan;
use std::alloc::{AllocError, Global};

/// The lowest key on which a node conflicts with another; none where they don't.
#[derive(Clone, Copy)]
pub(crate) struct KnownKey {
    pub of: u32,
    pub key: Option<u32>,
}

/// For each node of a plan one that takes the same keys in the same way, and for each such one the
/// key on which it conflicts with the node that was last compared with it. So two nodes aren't
/// compared where two with the same keys were.
#[derive(Drop)]
pub(crate) struct KnownKeys {
    pub firsts: Vec<u32>,
    pub found: Vec<Option<KnownKey>>,
}

impl KnownKeys {
    /// None are known so far of nodes of this plan.
    pub(crate) fn new(alloc: Global, plan: &Plan) -> Result<KnownKeys, AllocError>
        ensures { IfOk result (λ k. AreKnownKeys (tree_of plan.now) k.firsts.items k.found.items) }
    {
        let firsts = firsts(alloc, plan)?;
        let found = vec![in alloc; None; plan.len() as usize]?;
        Ok(KnownKeys { firsts, found })
    }

    /// The node that stands for a node: it takes the same keys in the same way.
    pub(crate) fn first(&self, node: u32) -> u32
        requires { node < length self.now.firsts.items }
        ensures { result ≡ slice_index_or self.now.firsts.items node 0 }
    {
        self.firsts[node as usize]
    }

    /// The lowest key on which two nodes conflict; none where they don't.
    pub(crate) fn key(&self, plan: &Plan, node: u32, other: u32) -> Option<u32>
        requires node { node < length plan.now.rows }
        requires other { other < length plan.now.rows }
        requires known { AreKnownKeys (tree_of plan.now) self.now.firsts.items
            self.now.found.items }
        ensures { result ≡ contended_key (tree_of plan.now) node other }
    {
        let of = self.first(node);
        let place = self.first(other);
        match self.found[place as usize] {
            Some(known) if known.of == of => known.key,
            _ => contended_key(plan, node, other),
        }
    }

    /// Whether a node conflicts with another. On which key is known from then on.
    pub(crate) fn conflict(&mut self, plan: &Plan, node: u32, other: u32) -> bool
        requires node { node < length plan.now.rows }
        requires other { other < length plan.now.rows }
        requires known { AreKnownKeys (tree_of plan.now) self.old.firsts.items
            self.old.found.items }
        ensures conflict { result ≡ conflict (tree_of plan.now) other node }
        ensures known { AreKnownKeys (tree_of plan.now) self.new.firsts.items self.new.found.items }
    {
        let key = self.key(plan, node, other);
        let of = self.first(node);
        let place = self.first(other);
        self.found[place as usize] = Some(KnownKey { of, key });
        key.is_some()
    }
}
