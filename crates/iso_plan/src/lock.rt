ghost use Rattle.std.specs.Prelude.{◌≡◌};
ghost use Rattle.std.specs.List.{list_any};
ghost use Rattle.iso_plan.specs.Locks.{is_write};

use iso_model::access::Access;

/// A key that a node takes, by its number, and how it takes it.
#[derive(Clone, Copy, PartialEq, Eq)]
pub struct Lock {
    pub key: u32,
    pub access: Access,
}

/// Whether one of some locks is for READ_WRITE.
pub(crate) fn takes_write(locks: &[Lock]) -> bool
    ensures { result ≡ list_any is_write locks.now }
{
    'locks: for lock in locks {
        if lock.access == Access::Write {
            return true;
        }
    }
    false
}
