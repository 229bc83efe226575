//! Sets of nodes of a plan.
ghost use Rattle.std.specs.Prelude.{◌≡◌, ◌<◌, IfOk, false, length, not, replicate, slice_set, true};
ghost use Rattle.iso_plan.specs.HeldNodes.{any_held, is_held};

use iso_desk::marks::Marks;
use std::alloc::{AllocError, Global};
use std::marker::Model;

/// Which nodes are in a set, a bit for each: every worker has such sets. Contracts see of each node
/// whether it is in it; beside that stands how many are.
#[derive(Drop)]
pub(crate) struct NodeSet {
    marks: Marks,
    nodes: usize,
    held: usize,
}

impl Model for NodeSet {
    ghost use Rattle.std.specs.Prelude.{Bool, List};
    ghost use Rattle.std.specs.Coded.{coded_bool, coded_list};
    ghost use Rattle.iso_desk.specs.Marking.{has};
    ghost use Rattle.iso_plan.specs.NodeSets.{KeepsNodes};
    ghost use Rattle.iso_plan.specs.Paths.{column};

    ghost Value = { List Bool };

    ghost coded = { coded_list coded_bool };

    ghost view = { λ s. column (has s.marks) s.nodes };

    ghost invariant = { λ s. KeepsNodes s.marks s.nodes s.held };
}

impl NodeSet {
    /// None of these many nodes. It takes all memory that its calls need.
    pub(crate) fn new(alloc: Global, nodes: usize) -> Result<NodeSet, AllocError>
        ensures { IfOk result (λ s. s ≡ replicate nodes false) }
    {
        Ok(NodeSet {
            marks: Marks::new(alloc, nodes)?,
            nodes,
            held: 0,
        })
    }

    /// Whether a node is in it.
    pub(crate) fn has(&self, node: usize) -> bool
        requires { node < length self.now }
        ensures { result ≡ is_held self.now node }
    {
        self.marks.has(node)
    }

    /// Whether it is empty.
    pub(crate) fn is_empty(&self) -> bool
        ensures { result ≡ not (any_held self.now) }
    {
        self.held == 0
    }

    /// Puts a node in that isn't in it.
    pub(crate) fn put_in(&mut self, node: usize)
        requires node { node < length self.old }
        requires free { is_held self.old node ≡ false }
        ensures { self.new ≡ slice_set self.old node true }
    {
        self.held += 1;
        self.marks.set(node, true);
    }

    /// Takes a node out that is in it.
    pub(crate) fn take_out(&mut self, node: usize)
        requires node { node < length self.old }
        requires there { is_held self.old node ≡ true }
        ensures { self.new ≡ slice_set self.old node false }
    {
        self.held -= 1;
        self.marks.set(node, false);
    }
}
