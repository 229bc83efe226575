//! The modes that nodes would have without a key.
ghost use Rattle.std.specs.Prelude.{◌<◌, length};

use iso_model::access::Access;
use iso_model::script::Mode;
use iso_plan::lock::Lock;
use iso_plan::plan::Plan;
use std::alloc::{AllocError, Global};

/// Which nodes run on the thread of their class for a key alone: they are descendants of one that
/// takes it for READ_WRITE, and of none that takes another so.
#[derive(Drop)]
pub(crate) struct Freed {
    by_key: Vec<bool>,
    by_others: Vec<bool>,
}

impl Freed {
    /// Of a plan without a key, if one is given.
    pub(crate) fn without(
        alloc: Global,
        plan: &Plan,
        key: Option<u32>,
    ) -> Result<Freed, AllocError> {
        let mut freed = Freed {
            by_key: Vec::with_capacity(alloc, plan.len() as usize)?,
            by_others: Vec::with_capacity(alloc, plan.len() as usize)?,
        };
        'nodes: for node in 0..plan.len() {
            freed.add(plan, key, node)?;
        }
        Ok(freed)
    }

    /// Adds the next node.
    fn add(&mut self, plan: &Plan, key: Option<u32>, node: u32) -> Result<(), AllocError>
        requires { node < length plan.now.rows }
    {
        let mut by_key = false;
        let mut by_others = false;
        if let Some(class) = plan.parent(node) {
            by_key = is_set(&self.by_key, class) || class_writes(plan, class, key, true);
            by_others = is_set(&self.by_others, class) || class_writes(plan, class, key, false);
        }
        self.by_key.push(by_key)?;
        self.by_others.push(by_others)?;
        Ok(())
    }

    /// The mode of a node.
    pub(crate) fn mode(&self, plan: &Plan, node: u32) -> Mode
        requires { node < length plan.now.rows }
    {
        if is_set(&self.by_key, node) && !is_set(&self.by_others, node) {
            return Mode::Concurrent;
        }
        plan.mode(node)
    }
}

/// Whether a node's place is set.
fn is_set(places: &[bool], node: u32) -> bool {
    match places.get(node as usize) {
        Some(set) => *set,
        None => false,
    }
}

/// Whether a class takes the key, or one but the key, for READ_WRITE.
fn class_writes(plan: &Plan, class: u32, key: Option<u32>, this: bool) -> bool {
    if plan.len() <= class {
        return false;
    }
    writes(plan.locks(class), key, this)
}

/// Whether one of some locks is on the key, or on one but the key, and for READ_WRITE.
fn writes(locks: &[Lock], key: Option<u32>, this: bool) -> bool {
    for lock in locks {
        if matches!(lock.access, Access::Write) && (Some(lock.key) == key) == this {
            return true;
        }
    }
    false
}
