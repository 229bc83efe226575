//! Values by key.
ghost use Rattle.std.specs.Prelude.{◌≡◌, ◌==◌, ◌∷◌, [], IfOk, OnOk, OnErr, List, Some, cond, bytes_eq, length, ℕ};
ghost use Rattle.std.specs.Ordering.{nat_cmp};
ghost use Rattle.std.specs.Cmp.Lexicographic.{slice_cmp};
ghost use Rattle.iso_model.specs.KeyMaps.{IsPlace, Rise, value_in};
ghost use Rattle.iso_model.specs.ResourceKeys.{spelling};

use crate::key::Key;
use crate::resource_key::ResourceKey;
use std::alloc::{AllocError, Global};
use std::cmp::Ordering;
use std::marker::Model;

/// Values by key, each key once. They stand in the order of their keys, so that a look-up compares
/// few of them.
pub struct KeyMap<V> {
    entries: Vec<(Key, V)>,
}

impl<V: Drop> Drop for KeyMap<V> {
    fn drop(self) {
        let KeyMap { entries: _ } = self;
    }
}

impl<V> Model for KeyMap<V> {
    ghost use Rattle.std.specs.Prelude.{List, ℕ};
    ghost use Rattle.iso_model.specs.KeyMaps.{Rise};

    ghost Value = { List (List ℕ × V) };

    ghost view = { λ m. m.entries.items };

    ghost invariant = { λ m. Rise m.entries.items };
}

impl<V: Copy + Drop> KeyMap<V> {
    /// No values.
    pub fn new(alloc: Global) -> KeyMap<V>
        ensures { result ≡ [] }
    {
        KeyMap {
            entries: Vec::new(alloc),
        }
    }

    /// A value for one key, and for no other.
    pub fn of_one(alloc: Global, key: Key, value: V) -> Result<KeyMap<V>, AllocError>
        ensures { IfOk result (λ m. m ≡ (key, value) ∷ []) }
    {
        let mut entries = Vec::with_capacity(alloc, 1)?;
        entries.push((key, value))?;
        Ok(KeyMap { entries })
    }

    /// Whether no key has a value.
    pub fn is_empty(&self) -> bool
        ensures { result ≡ (length self.now == 0) }
    {
        self.entries.is_empty()
    }

    /// The value of a resource, if it has one, without making its key.
    pub fn get(&self, resource: ResourceKey<'_>) -> Option<V>
        ensures { result ≡ value_in self.now (spelling resource.entry) }
    {
        match place_of_resource(&self.entries, resource) {
            Ok(place) => Some(self.entries[place].1),
            Err(_) => None,
        }
    }

    /// The value of a key, if it has one.
    pub fn get_of(&self, key: &Key) -> Option<V>
        ensures { result ≡ value_in self.now key.now }
    {
        match place_of(&self.entries, key) {
            Ok(place) => Some(self.entries[place].1),
            Err(_) => None,
        }
    }

    /// Gives a key a value, in place of the one that it had.
    pub fn set(&mut self, key: Key, value: V) -> Result<(), AllocError>
        ensures ok { OnOk result ((k : List ℕ) → value_in self.new k
            ≡ cond (bytes_eq k key) (Some value) (value_in self.old k)) }
        ensures err { OnErr result (self.new ≡ self.old) }
    {
        match place_of(&self.entries, &key) {
            Ok(place) => self.entries[place] = (key, value),
            Err(place) => self.entries.insert(place, (key, value))?,
        }
        Ok(())
    }
}

/// Where a key stands among entries whose keys rise, or else where it would stand.
fn place_of<V: Copy + Drop>(entries: &[(Key, V)], key: &Key) -> Result<usize, usize>
    requires { Rise entries.now }
    ensures { IsPlace entries.now key.now result }
{
    entries.binary_search_by(
        |entry: &(Key, V)| -> Ordering
            ensures { result ≡ slice_cmp nat_cmp entry.now.0 key.entry.now }
        { entry.0.order(key) },
    )
}

/// The same for a resource, without making its key.
fn place_of_resource<V: Copy + Drop>(
    entries: &[(Key, V)],
    resource: ResourceKey<'_>,
) -> Result<usize, usize>
    requires { Rise entries.now }
    ensures { IsPlace entries.now (spelling resource.entry) result }
{
    entries.binary_search_by(
        |entry: &(Key, V)| -> Ordering
            ensures { result ≡ slice_cmp nat_cmp entry.now.0 (spelling resource.entry) }
        { resource.order(&entry.0).reverse() },
    )
}
