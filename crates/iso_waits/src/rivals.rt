//! Which stays are in a node's way.
ghost use Rattle.std.specs.Prelude.{◌≡◌, ◌<◌, [], None, OnOk, length};
ghost use Rattle.std.specs.List.{All};
ghost use Rattle.iso_plan.specs.Locks.{is_that};
ghost use Rattle.iso_plan.specs.RowView.{tree_of};
ghost use Rattle.iso_waits.specs.KnownKeys.{AreKnownKeys};
ghost use Rattle.iso_waits.specs.Rivals.{AreKnown, IsAmong, rivals};

use crate::known_keys::KnownKeys;
use crate::stay::Stay;
use iso_plan::plan::Plan;
use std::alloc::{AllocError, Global};

/// The stays of nodes that conflict with a node, once they are known of one. They are those of each
/// node that takes the same keys in the same way, as tests of a class often do, so they aren't
/// looked for again.
#[derive(Drop)]
pub(crate) struct Rivals {
    pub of: Option<u32>,
    pub stays: Vec<Stay>,
}

impl Rivals {
    /// None are known so far.
    pub(crate) fn new(alloc: Global) -> Rivals
        ensures { result.of ≡ None }
    {
        Rivals {
            of: None,
            stays: Vec::new(alloc),
        }
    }

    /// Those of a node, of all stays.
    pub(crate) fn find(
        &mut self,
        keys: &mut KnownKeys,
        plan: &Plan,
        stays: &[Stay],
        node: u32,
    ) -> Result<(), AllocError>
        requires node { node < length plan.now.rows }
        requires stays { All (IsAmong (tree_of plan.now)) stays.now }
        requires known { AreKnown (tree_of plan.now) stays.now self.old.of self.old.stays.items }
        requires keys { AreKnownKeys (tree_of plan.now) keys.old.firsts.items keys.old.found.items }
        ensures found { OnOk result (self.new.stays.items
            ≡ rivals (tree_of plan.now) stays.now node) }
        ensures known { AreKnown (tree_of plan.now) stays.now self.new.of self.new.stays.items }
        ensures keys { AreKnownKeys (tree_of plan.now) keys.new.firsts.items keys.new.found.items }
    {
        let first = keys.first(node);
        if is_that(self.of, first) {
            return Ok(());
        }
        self.of = None;
        self.stays.clear();
        collect(&mut self.stays, keys, plan, stays, first)?;
        self.of = Some(first);
        Ok(())
    }
}

/// Whether there is a node, and it is this one.
fn is_that(of: Option<u32>, node: u32) -> bool
    ensures { result ≡ is_that of node }
{
    match of {
        Some(of) => of == node,
        None => false,
    }
}

/// Adds the stays of nodes that conflict with a node, of all stays. With one that takes no key none
/// does.
fn collect(
    found: &mut Vec<Stay>,
    keys: &mut KnownKeys,
    plan: &Plan,
    stays: &[Stay],
    node: u32,
) -> Result<(), AllocError>
    requires node { node < length plan.now.rows }
    requires stays { All (IsAmong (tree_of plan.now)) stays.now }
    requires empty { found.old.items ≡ [] }
    requires keys { AreKnownKeys (tree_of plan.now) keys.old.firsts.items keys.old.found.items }
    ensures found { OnOk result (found.new.items ≡ rivals (tree_of plan.now) stays.now node) }
    ensures keys { AreKnownKeys (tree_of plan.now) keys.new.firsts.items keys.new.found.items }
{
    if plan.locks(node).is_empty() {
        return Ok(());
    }
    for stay in stays {
        if keys.conflict(plan, node, stay.node) {
            found.push(*stay)?;
        }
    }
    Ok(())
}
