//! On which key two nodes exclude one another.
ghost use Rattle.std.specs.Prelude.{◌≡◌};
ghost use Rattle.iso_explain_plan.specs.Clashes.{first_clash, clash_on, held_for};
ghost use Rattle.iso_plan.specs.Conflicts.{excludes};

use iso_model::access::Access;
use iso_plan::lock::Lock;

/// A key that two nodes take, and how each takes it.
#[derive(Clone, Copy)]
pub(crate) struct Clash {
    pub key: u32,
    pub taken: Access,
    pub held: Access,
}

/// The first of some locks that one of others excludes.
pub(crate) fn first_clash(locks: &[Lock], others: &[Lock]) -> Option<Clash>
    ensures { result ≡ first_clash locks.now others.now }
{
    for lock in locks {
        if let Some(clash) = clash_on(*lock, others) {
            return Some(clash);
        }
    }
    None
}

/// The same of one lock.
fn clash_on(lock: Lock, others: &[Lock]) -> Option<Clash>
    ensures { result ≡ clash_on lock others.now }
{
    match held_for(lock, others) {
        Some(held) => Some(Clash {
            key: lock.key,
            taken: lock.access,
            held,
        }),
        None => None,
    }
}

/// How the first of these locks that excludes a lock is held.
fn held_for(lock: Lock, others: &[Lock]) -> Option<Access>
    ensures { result ≡ held_for lock others.now }
{
    for other in others {
        if excludes(lock, *other) {
            return Some(other.access);
        }
    }
    None
}

/// Whether two locks are on one key, and one of them is for READ_WRITE.
fn excludes(lock: Lock, other: Lock) -> bool
    ensures { result ≡ excludes lock other }
{
    lock.key == other.key
        && match (lock.access, other.access) {
            (Access::Read, Access::Read) => false,
            _ => true,
        }
}
