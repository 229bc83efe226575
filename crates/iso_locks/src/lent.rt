//! Which nodes are lent.
ghost use Rattle.std.specs.Prelude.{◌≡◌, ◌<◌, IfOk, false, length, not, true};
ghost use Rattle.iso_locks.specs.Lent.{AreApart, IsBeside};
ghost use Rattle.iso_locks.specs.Trays.{is_lent};
ghost use Rattle.iso_plan.specs.HeldNodes.{any_held, holding, none_held, releasing};
ghost use Rattle.iso_plan.specs.RowView.{tree_of};

use crate::lockers::Lockers;
use iso_plan::held_nodes::HeldNodes;
use iso_plan::laws;
use iso_plan::plan::Plan;
use std::alloc::{AllocError, Global};
use std::marker::Model;

/// The nodes of a plan that are lent. Beside them stand their locking nodes, so that whether
/// another node clashes with one of them costs its own locks and those of its locking node.
#[derive(Drop)]
pub(crate) struct LentNodes<'a> {
    plan: &'a Plan,
    lent: HeldNodes<'a>,
    lockers: Lockers<'a>,
}

impl<'a> Model for LentNodes<'a> {
    ghost use Rattle.iso_locks.specs.Lent.{KeepsLent};
    ghost use Rattle.iso_plan.specs.HeldNodes.{HeldView, held_code};

    ghost Value = { HeldView };

    ghost coded = { held_code };

    ghost view = { λ n. n.lent };

    ghost invariant = { λ n. KeepsLent n.plan.now n.lent n.lockers };
}

impl<'a> LentNodes<'a> {
    /// Of a plan, none. It takes all memory that lending needs.
    pub(crate) fn new(alloc: Global, plan: &'a Plan) -> Result<LentNodes<'a>, AllocError>
        ensures { IfOk result (λ n. n ≡ none_held plan.now) }
    {
        Ok(LentNodes {
            plan,
            lent: HeldNodes::new(alloc, plan)?,
            lockers: Lockers::new(alloc, plan)?,
        })
    }

    /// Whether a node is lent.
    pub(crate) fn has(&self, node: u32) -> bool
        requires { node < length self.now.plan.rows }
        ensures { result ≡ is_lent self.now.held node }
    {
        self.lent.is_held(node)
    }

    /// Whether no node is lent.
    pub(crate) fn is_empty(&self) -> bool
        ensures { result ≡ not (any_held self.now.held) }
    {
        self.lent.is_empty()
    }

    /// Whether a node clashes with one that is lent, of which no two clash. Where a lent node has
    /// the same locking node, no other lent node's locking node conflicts with that one. It looks
    /// at the node's own locks and those of its locking node. Takes no memory.
    pub(crate) fn clash_with(&self, node: u32) -> bool
        requires node { node < length self.now.plan.rows }
        requires apart { AreApart (tree_of self.now.plan) self.now.held }
        ensures beside { result ≡ false → IsBeside (tree_of self.now.plan) self.now.held node }
        ensures clashes { IsBeside (tree_of self.now.plan) self.now.held node → result ≡ false }
    {
        laws::nodes_are_a_tree(self.plan);
        if self.lent.excludes(node) {
            return true;
        }
        match self.plan.locking_node(node) {
            Some(locker) => self.lockers.keep_out(locker),
            None => false,
        }
    }

    /// A node that isn't lent is lent from now on. Takes no memory.
    pub(crate) fn lend(&mut self, node: u32)
        requires node { node < length self.old.plan.rows }
        requires free { is_lent self.old.held node ≡ false }
        ensures { self.new ≡ holding node self.old }
    {
        laws::nodes_are_a_tree(self.plan);
        laws::nodes_are_few(self.plan);
        self.lent.hold(node);
        if let Some(locker) = self.plan.locking_node(node) {
            self.lockers.add(locker);
        }
    }

    /// A node that is lent is lent no more. Takes no memory.
    pub(crate) fn take_back(&mut self, node: u32)
        requires node { node < length self.old.plan.rows }
        requires lent { is_lent self.old.held node ≡ true }
        ensures { self.new ≡ releasing node self.old }
    {
        laws::nodes_are_a_tree(self.plan);
        self.lent.release(node);
        if let Some(locker) = self.plan.locking_node(node) {
            self.lockers.remove(locker);
        }
    }
}
