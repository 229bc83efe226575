//! Which nodes gave a node its locks.
ghost use Rattle.std.specs.Prelude.{◌≡◌, ◌<◌, ◌≤◌, ◌&&◌, Some, length};
ghost use Rattle.iso_model.specs.Rights.{declared_by, rights_of, strongest};
ghost use Rattle.iso_plan.specs.KeyTable.{keys};
ghost use Rattle.iso_plan.specs.Paths.{is_under};
ghost use Rattle.iso_plan.specs.RowView.{tree_of};
ghost use Rattle.iso_why.specs.Givers.{gives, is_as};
ghost use Rattle.iso_why.specs.Next.{IsNext};

use crate::reach::stands_in;
use iso_model::access::Access;
use iso_model::heads::Mark;
use iso_plan::lock::Lock;
use iso_plan::plan::Plan;

/// The first node from a number on, and below an end, that gave another one a lock.
pub(crate) fn next_giver(plan: &Plan, node: u32, lock: Lock, from: u32, end: u32) -> Option<u32>
    requires above { 0 < node }
    requires key { lock.key < length (keys (tree_of plan.now)) }
    requires end { end ≤ length plan.now.rows }
    ensures { IsNext (λ m. is_under (tree_of plan.now) node m && gives (tree_of plan.now) lock m)
        from end result }
{
    'nodes: for giver in from..end {
        if is_giver(plan, node, lock, giver) {
            return Some(giver);
        }
    }
    None
}

/// Whether a node is another or a descendant of it, and gives it a lock.
fn is_giver(plan: &Plan, node: u32, lock: Lock, giver: u32) -> bool
    requires above { 0 < node }
    requires within { giver < length plan.now.rows }
    requires key { lock.key < length (keys (tree_of plan.now)) }
    ensures { result ≡ (is_under (tree_of plan.now) node giver
        && gives (tree_of plan.now) lock giver) }
{
    stands_in(plan, giver, node) && gives(plan, lock, giver)
}

/// Whether a node gives a lock to the node that gathers for it.
fn gives(plan: &Plan, lock: Lock, node: u32) -> bool
    requires within { node < length plan.now.rows }
    requires key { lock.key < length (keys (tree_of plan.now)) }
    ensures { result ≡ gives (tree_of plan.now) lock node }
{
    if lock.key == 0 {
        return plan.isolates(node);
    }
    is_as(lock.access, declared(plan.marks(node), plan.key(lock.key)))
}

/// The access in which marks declare a key, if they do.
fn declared(marks: &[Mark], key: &str) -> Option<Access>
    ensures { result ≡ rights_of marks.now key.now }
{
    let mut found = None;
    'marks: for mark in marks {
        found = with_mark(found, mark, key);
    }
    found
}

/// The same with a mark more.
fn with_mark(found: Option<Access>, mark: &Mark, key: &str) -> Option<Access>
    ensures { result ≡ strongest (declared_by mark.now key.now) found }
{
    if key == mark.key.as_str() {
        Some(stronger(mark.access, found))
    } else {
        found
    }
}

/// The stronger of two accesses, of which the second may be absent.
fn stronger(access: Access, other: Option<Access>) -> Access
    ensures { Some result ≡ strongest (Some access) other }
{
    match other {
        Some(other) => access.stronger(other),
        None => access,
    }
}

/// Whether an access is this one.
fn is_as(access: Access, other: Option<Access>) -> bool
    ensures { result ≡ is_as access other }
{
    match (access, other) {
        (Access::Read, Some(Access::Read)) | (Access::Write, Some(Access::Write)) => true,
        (Access::Read | Access::Write, _) => false,
    }
}
