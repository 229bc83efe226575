//! How many workers a plan can keep busy.
ghost use Rattle.std.specs.Prelude.{◌≤◌, IfOk};

use crate::nodes::{children_of, is_concurrent};
use iso_model::access::Access;
use iso_plan::plan::Plan;
use std::alloc::{AllocError, Global};

/// How many of `workers` workers a plan can keep busy at once, at most: at least one. It goes over
/// all nodes once.
///
/// Whoever is busy does a CONCURRENT node that it entered, or what is on the same thread in one; or
/// it does what is on the root's thread. Of the CONCURRENT nodes that take the same key for
/// READ_WRITE one at a time is entered, so that all of them keep one worker busy. No clause says
/// that more workers would find nothing to do: it is tested.
pub fn busy_workers(alloc: Global, plan: &Plan, workers: u32) -> Result<u32, AllocError>
    ensures some { IfOk result (λ n. 1 ≤ n) }
    ensures of_them { 1 ≤ workers → IfOk result (λ n. n ≤ workers) }
{
    let mut written = vec![in alloc; false; plan.key_count() as usize]?;
    let mut busy = u32::from(has_own_thread(plan));
    for node in 0..plan.len() {
        if is_concurrent(plan, node) && is_first_writer(plan, node, &mut written) {
            busy = busy.saturating_add(1);
        }
    }
    Ok(busy.min(workers).max(1))
}

// Whether something that stands directly in the root is on the root's thread.
fn has_own_thread(plan: &Plan) -> bool {
    for node in children_of(plan, 0) {
        if !is_concurrent(plan, *node) {
            return true;
        }
    }
    false
}

// Whether no node before this one has the first key that this one takes for READ_WRITE; or it takes
// none so. The key is noted.
fn is_first_writer(plan: &Plan, node: u32, written: &mut Vec<bool>) -> bool {
    if node >= plan.len() {
        return false;
    }
    for lock in plan.lead_locks(node) {
        if lock.access == Access::Write {
            return match written.get_mut(lock.key as usize) {
                Some(noted) => !std::mem::replace(noted, true),
                None => true,
            };
        }
    }
    true
}
