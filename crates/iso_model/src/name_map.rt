//! Values by name.
ghost use Rattle.std.specs.Prelude.{◌≡◌, ◌↔◌, IsTrue, List, OnOk, OnErr, Some, option_copied, string_bytes, ℕ};
ghost use Rattle.std.specs.FinMap as map;
ghost use Rattle.iso_model.specs.NameMaps.{RiseByName, map_of};

use std::alloc::{AllocError, Global};
use std::collections::BTreeMap;
use std::collections::btree_map::{IntoIter, Iter};
use std::marker::Model;

/// Whose values can be compared, without taking memory.
pub trait Same {
    /// Whether contracts see both as equal.
    fn same(&self, other: &Self) -> bool
        ensures { IsTrue result ↔ (self.now ≡ other.now) };
}

/// A map from names to values, each name once.
pub struct NameMap<V> {
    entries: BTreeMap<String, V>,
}

impl<V: Drop> Drop for NameMap<V> {
    fn drop(self) {
        let NameMap { entries: _ } = self;
    }
}

impl<V> Model for NameMap<V> {
    ghost use Rattle.iso_model.specs.NameMaps.{NameMap as Seen, map_of, name_map_code};

    ghost Value = { Seen V };

    ghost coded = { name_map_code V.code };

    ghost view = { λ m. map_of m.entries.entries };
}

impl<V: Drop> NameMap<V> {
    /// No names.
    pub fn new(alloc: Global) -> NameMap<V>
        ensures { result ≡ map.empty }
    {
        NameMap {
            entries: BTreeMap::new(alloc),
        }
    }

    /// The value of a name, or `None` where it has none.
    pub fn get(&self, name: &str) -> Option<&V>
        ensures { option_copied result ≡ map.get self.now name.now }
    {
        self.entries.get(name)
    }

    /// Gives a name a value, in place of the one that it had.
    pub fn set(&mut self, name: String, value: V) -> Result<(), AllocError>
        ensures ok { OnOk result (self.new ≡ map.insert self.old (string_bytes name) value) }
        ensures err { OnErr result (self.new ≡ self.old) }
    {
        self.entries.insert(name, value)?;
        Ok(())
    }

    /// Takes the value of a name away. A name that has none stays so.
    pub fn clear(&mut self, name: &str)
        ensures { self.new ≡ map.remove self.old name.now }
    {
        self.entries.remove(name);
    }

    /// The names in order, with their values.
    pub fn iter(&self) -> Iter<'_, String, V>
        ensures entries { map_of result ≡ self.now }
        ensures ordered { RiseByName result }
    {
        self.entries.iter()
    }
}

impl<V: Drop> IntoIterator for NameMap<V> {
    type Item = (String, V);

    type IntoIter = IntoIter<String, V, Global>;

    ghost into_iter_gives = { λ m r. (map_of r ≡ m) × RiseByName r };

    fn into_iter(self) -> IntoIter<String, V, Global> {
        let NameMap { entries } = self;
        entries.into_iter()
    }
}

impl<V: Same + Drop> NameMap<V> {
    /// Whether both have the same names, with the same values. Looks up each name of both in the
    /// other at most once, and takes no memory.
    pub fn same(&self, other: &NameMap<V>) -> bool
        ensures { IsTrue result ↔ (self.now ≡ other.now) }
    {
        self.is_within(other) && other.is_within(self)
    }

    /// Whether the other has each name of this one, with the same value.
    fn is_within(&self, other: &NameMap<V>) -> bool
        ensures { IsTrue result
            ↔ ((name : List ℕ) (value : V) → map.get self.now name ≡ Some value
            → map.get other.now name ≡ Some value) }
    {
        'entries: for (name, value) in self.iter() {
            let Some(found) = other.get(name.as_str()) else {
                return false;
            };
            if !found.same(value) {
                return false;
            }
        }
        true
    }
}
