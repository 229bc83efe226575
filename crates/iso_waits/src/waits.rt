//! The waits of nodes.
ghost use Rattle.std.specs.Prelude.{◌≡◌, ◌<◌, IfOk, length};
ghost use Rattle.iso_plan.specs.RowView.{tree_of};
ghost use Rattle.iso_waits.specs.ContendedKeys.{contended_key};
ghost use Rattle.iso_waits.specs.Stays.{stayed};
ghost use Rattle.iso_waits.specs.Waits.{earlier, ready, waits};

use crate::known_keys::KnownKeys;
use crate::order::in_order;
use crate::ready;
use crate::rivals::Rivals;
use crate::stay::{Stay, stayed};
use crate::wait::Wait;
use crate::within::waits_within;
use iso_plan::plan::Plan;
use iso_times::times::Times;
use std::alloc::{AllocError, Global};
use std::marker::Model;

/// What tells what the nodes of a run waited for. Contracts see the plan of the run and the times
/// of its bodies.
pub struct Waits<'a> {
    plan: &'a Plan,
    times: &'a Times,
    stays: Vec<Stay>,
    keys: KnownKeys,
    rivals: Rivals,
}

impl<'a> Drop for Waits<'a> {
    fn drop(self) {
        let Waits {
            plan: _,
            times: _,
            stays: _,
            keys: _,
            rivals: _,
        } = self;
    }
}

impl<'a> Model for Waits<'a> {
    ghost use Rattle.iso_model.specs.SyntaxCodes.{acts_code};
    ghost use Rattle.iso_plan.specs.RowView.{tree_of};
    ghost use Rattle.iso_waits.specs.KnownKeys.{AreKnownKeys};
    ghost use Rattle.iso_waits.specs.Rivals.{AreKnown, AreStays, Ran};
    ghost use Rattle.std.specs.Coded.{codes};

    ghost Value = { Ran };

    ghost coded = { Prim.hlevel (codes, acts_code) };

    ghost view = { λ w. record { plan = w.plan.now; bodies = w.times.now } };

    ghost invariant = { λ w. AreStays (tree_of w.plan.now) w.times.now w.stays.items
        × AreKnown (tree_of w.plan.now) w.stays.items w.rivals.of w.rivals.stays.items
        × AreKnownKeys (tree_of w.plan.now) w.keys.firsts.items w.keys.found.items };
}

impl<'a> Waits<'a> {
    /// Of a run of this plan, whose bodies had these times.
    pub fn new(alloc: Global, plan: &'a Plan, times: &'a Times) -> Result<Waits<'a>, AllocError>
        ensures plan { IfOk result (λ w. w.plan ≡ plan.now) }
        ensures bodies { IfOk result (λ w. w.bodies ≡ times.now) }
    {
        let stays = in_order(alloc, times, plan.len())?;
        let keys = KnownKeys::new(alloc, plan)?;
        Ok(Waits {
            plan,
            times,
            stays,
            keys,
            rivals: Rivals::new(alloc),
        })
    }

    /// The waits of a node other than the root for others, from when it was ready until it was
    /// entered: at each moment for the lowest node that conflicts with it, was entered and hadn't
    /// finished. None where it wasn't entered, or the times don't tell when it was ready. The rest
    /// of that time it waited for a worker.
    pub fn waits(&mut self, alloc: Global, node: u32) -> Result<Vec<Wait>, AllocError>
        requires above { 0 < node }
        requires within { node < length self.old.plan.rows }
        ensures same { self.new ≡ self.old }
        ensures waits { IfOk result (λ v. v.items
            ≡ waits (tree_of self.old.plan) self.old.plan.settings self.old.bodies node) }
    {
        let Some(from) = ready::ready(self.plan, self.times, node) else {
            return Ok(Vec::new(alloc));
        };
        let Some(stay) = stayed(self.times, node) else {
            return Ok(Vec::new(alloc));
        };
        self.rivals
            .find(&mut self.keys, self.plan, &self.stays, node)?;
        waits_within(alloc, &self.rivals.stays, from, stay.begin)
    }

    /// The lowest key on which two nodes conflict; none where they don't.
    pub(crate) fn key(&self, node: u32, other: u32) -> Option<u32>
        requires node { node < length self.now.plan.rows }
        requires other { other < length self.now.plan.rows }
        ensures { result ≡ contended_key (tree_of self.now.plan) node other }
    {
        self.keys.key(self.plan, node, other)
    }

    /// For a runner of one's own: when a node was entered and hadn't finished. None where its first
    /// body has no time: it didn't run, or a clock failed. A class whose `after_all` has none,
    /// since a clock failed, counts as finished when its `before_all` had ended.
    pub fn stay(&self, node: u32) -> Option<Stay>
        ensures { result ≡ stayed self.now.bodies node }
    {
        stayed(self.times, node)
    }

    /// For a runner of one's own: when a node other than the root was ready. Its class was open
    /// then and, where it is SAME_THREAD, its earlier SAME_THREAD sibling had finished. None where
    /// its class's `before_all` has no time.
    pub fn ready(&self, node: u32) -> Option<u64>
        requires above { 0 < node }
        requires within { node < length self.now.plan.rows }
        ensures { result ≡ ready (tree_of self.now.plan) self.now.plan.settings
            self.now.bodies node }
    {
        ready::ready(self.plan, self.times, node)
    }

    /// The sibling that a node other than the root has to let finish: the last SAME_THREAD one
    /// before it that was entered, where the node is SAME_THREAD too.
    pub fn earlier(&self, node: u32) -> Option<u32>
        requires above { 0 < node }
        requires within { node < length self.now.plan.rows }
        ensures { result ≡ earlier (tree_of self.now.plan) self.now.plan.settings
            self.now.bodies node }
    {
        ready::earlier(self.plan, self.times, node)
    }
}
