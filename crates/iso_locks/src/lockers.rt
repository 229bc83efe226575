//! The locking nodes of the nodes that are lent.
ghost use Rattle.std.specs.Prelude.{◌≡◌, ◌<◌, ◌≤◌, IfOk, length};
ghost use Rattle.iso_model.specs.declared.limits.TheConstants.{NODES};
ghost use Rattle.iso_locks.specs.Lockers.{is_kept_out, no_lockers, one_less, one_more, under_it};

use crate::counts::Counts;
use iso_plan::held_nodes::HeldNodes;
use iso_plan::plan::Plan;
use std::alloc::{AllocError, Global};
use std::marker::Model;

/// Of how many lent nodes each node of a plan is the locking node. Contracts see these numbers;
/// beside them are the nodes that have one, so that what is in another one's way costs its
/// own locks.
#[derive(Drop)]
pub(crate) struct Lockers<'a> {
    nodes: HeldNodes<'a>,
    under: Counts,
}

impl<'a> Model for Lockers<'a> {
    ghost use Rattle.iso_locks.specs.Lockers.{KeepsLockers, LockersView, lockers_code};

    ghost Value = { LockersView };

    ghost coded = { lockers_code };

    ghost view = { λ l. record { plan = l.nodes.plan; under = l.under } };

    ghost invariant = { λ l. KeepsLockers l.nodes l.under };
}

impl<'a> Lockers<'a> {
    /// Of a plan no node of which is lent. It takes all memory that lending needs.
    pub(crate) fn new(alloc: Global, plan: &'a Plan) -> Result<Lockers<'a>, AllocError>
        ensures { IfOk result (λ l. l ≡ no_lockers plan.now) }
    {
        Ok(Lockers {
            nodes: HeldNodes::new(alloc, plan)?,
            under: Counts::new(alloc, plan.len() as usize)?,
        })
    }

    /// Counts one lent node more that a node is the locking node of. Takes no memory.
    pub(crate) fn add(&mut self, locker: u32)
        requires node { locker < length self.old.plan.rows }
        requires few { under_it self.old.under locker ≤ length self.old.plan.rows }
        requires limit { length self.old.plan.rows ≤ NODES }
        ensures { self.new ≡ one_more locker self.old }
    {
        let counted = self.under.get(locker as usize);
        self.under.set(locker as usize, counted + 1);
        self.nodes.hold(locker);
    }

    /// Counts one lent node less that a node is the locking node of. Takes no memory.
    pub(crate) fn remove(&mut self, locker: u32)
        requires node { locker < length self.old.plan.rows }
        requires counted { 0 < under_it self.old.under locker }
        ensures { self.new ≡ one_less locker self.old }
    {
        let left = self.under.get(locker as usize) - 1;
        self.under.set(locker as usize, left);
        if left == 0 {
            self.nodes.release(locker);
        }
    }

    /// Whether a node is no locking node of lent ones, and conflicts with one that is. It looks at
    /// its own locks. Takes no memory.
    pub(crate) fn keep_out(&self, locker: u32) -> bool
        requires { locker < length self.now.plan.rows }
        ensures { result ≡ is_kept_out self.now locker }
    {
        !self.nodes.is_held(locker) && self.nodes.excludes(locker)
    }
}
