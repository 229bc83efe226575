//! The key that a node waits for.
ghost use Rattle.std.specs.Prelude.{◌≡◌, ◌<◌, IfSome, length};
ghost use Rattle.iso_plan.specs.Conflicts.{excludes};
ghost use Rattle.iso_plan.specs.KeyTable.{keys};
ghost use Rattle.iso_plan.specs.RowView.{tree_of};
ghost use Rattle.iso_waits.specs.ContendedKeys.{contended_key};

use iso_model::access::Access;
use iso_plan::lock::Lock;
use iso_plan::plan::Plan;

/// The lowest key on which two nodes of a plan conflict; none where they don't. Takes no memory.
/// Locks stand in the order of their keys, so both lists are gone through once, side by side, up to
/// this key.
pub fn contended_key(plan: &Plan, node: u32, other: u32) -> Option<u32>
    requires node { node < length plan.now.rows }
    requires other { other < length plan.now.rows }
    ensures key { result ≡ contended_key (tree_of plan.now) node other }
    ensures known { IfSome result (λ k. k < length (keys (tree_of plan.now))) }
{
    let locks = plan.locks(node);
    let others = plan.locks(other);
    let mut place = 0;
    let mut other_place = 0;
    'merge: while place < locks.len() && other_place < others.len() {
        let lock = locks[place];
        let other_lock = others[other_place];
        if excludes(lock, other_lock) {
            return Some(lock.key);
        }
        if lock.key < other_lock.key {
            place += 1;
        } else {
            other_place += 1;
        }
    }
    None
}

/// Whether two locks are on one key, and one of them is for READ_WRITE.
fn excludes(lock: Lock, other: Lock) -> bool
    ensures { result ≡ excludes lock other }
{
    lock.key == other.key
        && match (lock.access, other.access) {
            (Access::Read, Access::Read) => false,
            _ => true,
        }
}
