//! Nodes that exclude each other by their locks.
ghost use Rattle.std.specs.Prelude.{◌≡◌, ◌<◌, ◌||◌, length};
ghost use Rattle.iso_plan.specs.Conflicts.{conflicts, excludes, lowest_in_the_way};
ghost use Rattle.iso_plan.specs.Locks.{conflict};
ghost use Rattle.iso_plan.specs.Rising.{Rise};
ghost use Rattle.iso_plan.specs.RowView.{tree_of};

use crate::lock::Lock;
use crate::plan::Plan;
use iso_model::access::Access;

/// What knows which nodes of a plan are held: lent, or entered and not finished, or the root.
pub trait Holders {
    ghost use Rattle.std.specs.Prelude.{◌≡◌, ◌<◌, ℕ, Bool};

    /// Of how many nodes it knows.
    ghost nodes: { Self → ℕ };

    /// Whether a node is held.
    ghost held: { Self → ℕ → Bool };

    /// Whether a node is held.
    fn is_held(&self, node: u32) -> bool
        requires { node < nodes self.now }
        ensures { result ≡ held self.now node };
}

/// The lowest held node that conflicts with a node. None does with one that takes no locks, so that
/// a node whose locks an enclosing class took costs no search; of the others, locks are compared
/// with those of held nodes alone. Takes no memory.
pub fn lowest_in_the_way<H: Holders>(plan: &Plan, holders: &H, node: u32) -> Option<u32>
    requires node { node < length plan.now.rows }
    requires holders { H.nodes holders.now ≡ length plan.now.rows }
    ensures { result ≡ lowest_in_the_way (tree_of plan.now) (H.held holders.now) node }
{
    let taken = plan.locks(node);
    if taken.is_empty() {
        return None;
    }
    'nodes: for m in 0..plan.len() {
        if holders.is_held(m) && conflicts(plan.locks(m), taken) {
            return Some(m);
        }
    }
    None
}

/// For a runner of one's own: whether two nodes of a plan conflict, since they take one key and one
/// of them takes it for READ_WRITE. Takes no memory.
pub fn nodes_conflict(plan: &Plan, node: u32, other: u32) -> bool
    requires node { node < length plan.now.rows }
    requires other { other < length plan.now.rows }
    ensures { result ≡ conflict (tree_of plan.now) node other }
{
    conflicts(plan.locks(node), plan.locks(other))
}

/// Whether two nodes with these locks conflict: they take one key, and one of them takes it for
/// READ_WRITE. Locks stand in the order of their keys, so both lists are gone through once, side by
/// side.
fn conflicts(some: &[Lock], others: &[Lock]) -> bool
    requires some { Rise some.now }
    requires others { Rise others.now }
    ensures { result ≡ conflicts some.now others.now }
{
    let mut place = 0;
    let mut other_place = 0;
    'merge: while place < some.len() && other_place < others.len() {
        let lock = some[place];
        let other = others[other_place];
        if excludes(lock, other) {
            return true;
        }
        if lock.key < other.key {
            place += 1;
        } else {
            other_place += 1;
        }
    }
    false
}

/// Whether two locks are on one key, and one of them is for READ_WRITE.
fn excludes(lock: Lock, other: Lock) -> bool
    ensures { result ≡ excludes lock other }
{
    lock.key == other.key
        && match (lock.access, other.access) {
            (Access::Read, Access::Read) => false,
            _ => true,
        }
}
