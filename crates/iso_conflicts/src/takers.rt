//! Which nodes take a key.
ghost use Rattle.std.specs.Prelude.{◌≡◌, ◌<◌, ◌-◌, length};
ghost use Rattle.std.specs.List.{list_any, range_with_len};
ghost use Rattle.iso_conflicts.specs.Takers.{access_on, takes};
ghost use Rattle.iso_plan.specs.KeyTable.{keys};
ghost use Rattle.iso_plan.specs.RowView.{tree_of};

use iso_model::access::Access;
use iso_plan::lock::Lock;
use iso_plan::plan::Plan;

/// Whether a node takes a key with this access.
pub(crate) fn takes(plan: &Plan, access: Access, key: u32, node: u32) -> bool
    requires { node < length plan.now.rows }
    ensures { result ≡ takes (tree_of plan.now) access key node }
{
    match (access, access_on(plan.locks(node), key)) {
        (Access::Read, Some(Access::Read)) | (Access::Write, Some(Access::Write)) => true,
        (Access::Read | Access::Write, _) => false,
    }
}

/// Whether some node but the root takes a key with this access.
pub(crate) fn is_taken(plan: &Plan, access: Access, key: u32) -> bool
    ensures { result ≡ list_any (takes (tree_of plan.now) access key)
        (range_with_len 1 (length plan.now.rows - 1)) }
{
    'nodes: for node in 1..plan.len() {
        if takes(plan, access, key, node) {
            return true;
        }
    }
    false
}

/// The access with which locks take a key, if they do.
pub(crate) fn access_on(locks: &[Lock], key: u32) -> Option<Access>
    ensures { result ≡ access_on key locks.now }
{
    'locks: for lock in locks {
        if lock.key == key {
            return Some(lock.access);
        }
    }
    None
}
