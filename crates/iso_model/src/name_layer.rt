//! Shared names, as one owner sees them.
ghost use Rattle.std.specs.Prelude.{◌≡◌, length, take, option_map, IfOk, OnOk, OnErr};
ghost use Rattle.std.specs.List.{slice_get};
ghost use Rattle.iso_model.specs.Names.{lent, place_of, revalued};

use crate::data::Data;
use crate::names::LentBinding;
use crate::shared_names::SharedNames;
use std::alloc::{AllocError, Global};
use std::collections::BTreeMap;
use std::marker::Model;

/// The first `len` of shared names, with the values that this owner has given them since.
#[derive(Drop)]
pub(crate) struct NameLayer {
    names: SharedNames,
    len: usize,
    given: BTreeMap<usize, Data>,
}

impl Model for NameLayer {
    ghost use Rattle.std.specs.Prelude.{◌≤◌, List, length, take};
    ghost use Rattle.iso_model.specs.declared.names.Binding.{Binding};
    ghost use Rattle.iso_model.specs.NameLayers.{given_at, given_from};

    ghost Value = { List Binding };

    ghost view = { λ l. given_from (given_at l.given) 0 (take l.len l.names) };

    ghost invariant = { λ l. l.len ≤ length l.names };
}

impl NameLayer {
    /// All of these names, as they are.
    pub fn new(alloc: Global, names: SharedNames) -> NameLayer
        ensures { result ≡ names }
    {
        let len = names.list().len();
        NameLayer {
            names,
            len,
            given: BTreeMap::new(alloc),
        }
    }

    /// How many names there are.
    pub fn len(&self) -> usize
        ensures { result ≡ length self.now }
    {
        self.len
    }

    /// Where a name stands first, or the number of names.
    pub fn place_of(&self, name: &str) -> usize
        ensures { result ≡ place_of self.now name.now }
    {
        let place = self.names.list().place_of(name);
        if place < self.len { place } else { self.len }
    }

    /// The name at a place, or `None` past the last.
    pub fn at(&self, place: usize) -> Option<LentBinding<'_>>
        ensures { option_map lent result ≡ slice_get self.now place }
    {
        if place >= self.len {
            return None;
        }
        let Some(binding) = self.names.list().at(place) else {
            return None;
        };
        match self.given.get(&place) {
            None => Some(binding),
            Some(value) => Some(LentBinding { value, ..binding }),
        }
    }

    /// Drops the names past the first `count`.
    pub fn keep(&mut self, count: usize)
        ensures { self.new ≡ take count self.old }
    {
        if count < self.len {
            self.len = count;
        }
    }

    /// Gives the name at a place another value, where there is one.
    pub fn set_value(&mut self, place: usize, value: Data) -> Result<(), AllocError>
        ensures ok { OnOk result (self.new ≡ revalued self.old place value) }
        ensures err { OnErr result (self.new ≡ self.old) }
    {
        if place >= self.len {
            drop(value);
            return Ok(());
        }
        drop(self.given.insert(place, value)?);
        Ok(())
    }
}
