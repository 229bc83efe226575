//! Nodes that take the same keys.
ghost use Rattle.std.specs.Prelude.{◌≡◌, ◌<◌, IfOk, IsTrue, length};
ghost use Rattle.iso_plan.specs.RowView.{tree_of};
ghost use Rattle.iso_waits.specs.KnownKeys.{AreFirsts, IsTwin};

use iso_model::access::Access;
use iso_plan::lock::Lock;
use iso_plan::plan::Plan;
use std::alloc::{AllocError, Global};
use std::collections::BTreeMap;

/// For each node of a plan one that takes the same keys in the same way: mostly the first that
/// does, so that nodes that do have the same one.
pub(crate) fn firsts(alloc: Global, plan: &Plan) -> Result<Vec<u32>, AllocError>
    ensures { IfOk result (λ v. AreFirsts (tree_of plan.now) v.items) }
{
    let mut table: BTreeMap<u64, u32> = BTreeMap::new(alloc);
    let mut firsts = Vec::with_capacity(alloc, plan.len() as usize)?;
    'nodes: for node in 0..plan.len() {
        let print = fingerprint(plan.locks(node));
        let first = twin(plan, table.get(&print).copied(), node);
        table.insert(print, first)?;
        firsts.push(first)?;
    }
    Ok(firsts)
}

/// A node before another, if one was found that takes the same keys in the same way; else this one
/// itself.
fn twin(plan: &Plan, found: Option<u32>, node: u32) -> u32
    requires { node < length plan.now.rows }
    ensures { IsTwin (tree_of plan.now) node result }
{
    match found {
        Some(first) if first < node => same_or(plan, first, node),
        _ => node,
    }
}

/// The first of two nodes, where it takes the same keys in the same way as the second; else that.
fn same_or(plan: &Plan, first: u32, node: u32) -> u32
    requires first { first < length plan.now.rows }
    requires node { node < length plan.now.rows }
    ensures { IsTwin (tree_of plan.now) node result }
{
    if same_locks(plan.locks(first), plan.locks(node)) {
        first
    } else {
        node
    }
}

/// Whether these are the same locks in the same order.
fn same_locks(some: &[Lock], others: &[Lock]) -> bool
    ensures { IsTrue result → some.now ≡ others.now }
{
    if some.len() != others.len() {
        return false;
    }
    for (i, lock) in some.iter().enumerate() {
        if *lock != others[i] {
            return false;
        }
    }
    true
}

/// A number of some locks, mostly another one than that of other locks. Nothing but time hangs on
/// it.
fn fingerprint(locks: &[Lock]) -> u64 {
    let mut print: u64 = 0;
    for lock in locks {
        print = (print.rotate_left(5) ^ number(*lock)).wrapping_mul(0x517C_C1B7_2722_0A95);
    }
    print
}

/// A number of a lock, another one than that of any other lock.
fn number(lock: Lock) -> u64 {
    let twice = lock.key as u64 * 2;
    match lock.access {
        Access::Read => twice,
        Access::Write => twice + 1,
    }
}
