ghost use Rattle.std.specs.Prelude.{◌≡◌, ℕ, List, Some, None, cond, bytes_eq, OnOk, OnErr, option_copied, option_map};
ghost use Rattle.iso_model.specs.Memory.{held, slot_of, value_at};
ghost use Rattle.iso_model.specs.ResourceKeys.{spelling};
ghost use Rattle.iso_model.specs.Resources.{changed};
ghost use Rattle.iso_model.specs.Touch.{answered};

use crate::key::Key;
use crate::resource::{Ask, Change, Resource};
use crate::resource_key::ResourceKey;
use crate::touch::Touch;
use std::alloc::{AllocError, Global};

/// Resources in memory, each of which may be changed.
pub struct Memory {
    slots: Vec<(Key, Resource)>,
}

impl Drop for Memory {
    fn drop(self) {
        let Memory { slots: _ } = self;
    }
}

impl Memory {
    /// No resources.
    pub fn new(alloc: Global) -> Memory
        ensures { (k : List ℕ) → held result k ≡ None }
    {
        Memory {
            slots: Vec::new(alloc),
        }
    }

    /// A resource more, or another value for one that is there.
    pub fn hold(&mut self, key: Key, value: Resource) -> Result<(), AllocError>
        ensures ok { OnOk result ((k : List ℕ) → held self.new k
            ≡ cond (bytes_eq k key) (Some value) (held self.old k)) }
        ensures err { OnErr result (held self.new ≡ held self.old) }
    {
        self.slots.insert(0, (key, value))?;
        Ok(())
    }
}

impl Touch for Memory {
    ghost use Rattle.std.specs.Prelude.{true, refl};

    ghost content = { held };

    ghost writes = { λ m k. true };

    ghost goes_on = { λ m n. Unit {0} };

    fn look(&self, key: ResourceKey<'_>, ask: Ask<'_>) -> Option<&str> {
        match find(&self.slots, key) {
            Some(value) => value.look(ask),
            None => None,
        }
    }

    fn change(&mut self, key: ResourceKey<'_>, change: Change) -> Result<(), AllocError> {
        let slot = slot_of(&self.slots, key);
        self.slots[slot].1.change(change)
    }

    ghost still = { λ t. record {} };

    ghost further = { λ t u v p q. record {} };

    ghost same_writes = { λ t u p. refl };
}

/// The value at a key.
fn find<'a>(slots: &'a [(Key, Resource)], key: ResourceKey<'_>) -> Option<&'a Resource>
    ensures { option_copied result ≡ value_at slots.now (spelling key.entry) }
{
    for (held, value) in slots {
        if key.is(held) {
            return Some(value);
        }
    }
    None
}

/// Where a key stands, or the number of keys.
fn slot_of(slots: &[(Key, Resource)], key: ResourceKey<'_>) -> usize
    ensures { result ≡ slot_of slots.now (spelling key.entry) }
{
    let mut slot = 0;
    for (held, _) in slots {
        if key.is(held) {
            return slot;
        }
        slot += 1;
    }
    slot
}
