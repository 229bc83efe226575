//! A list of names, and where each stands first.
ghost use Rattle.std.specs.Prelude.{◌≡◌, ◌<◌, ◌^◌, ◌∷◌, ◌++◌, [], length, take, option_map, IfOk, OnOk, OnErr};
ghost use Rattle.std.specs.List.{slice_get};
ghost use Rattle.iso_model.specs.declared.names.Binding.{Binding};
ghost use Rattle.iso_model.specs.NamePlaces.{Tells};
ghost use Rattle.iso_model.specs.Names.{lent, place_of, revalued};

use crate::data::Data;
use crate::names::{Binding, LentBinding};
use std::alloc::{AllocError, Global};
use std::collections::BTreeMap;
use std::marker::Model;
use std::mem;

/// Names with their values, in order.
#[derive(Drop)]
pub(crate) struct NameList {
    bindings: Vec<Binding>,
    /// Where each name stands first, once `index` has found it out. Names that were dropped stay in
    /// it. It's boxed, since most lists have none, and a block is moved with its names.
    places: Option<Box<BTreeMap<String, usize>>>,
}

impl Model for NameList {
    ghost use Rattle.std.specs.Prelude.{List};
    ghost use Rattle.iso_model.specs.declared.names.Binding.{Binding};
    ghost use Rattle.iso_model.specs.NamePlaces.{TellsWhereMade};

    ghost Value = { List Binding };

    ghost view = { λ n. n.bindings.items };

    ghost invariant = { λ n. TellsWhereMade n.places n.bindings.items };
}

impl NameList {
    /// These names, of which no index is made.
    pub fn new(bindings: Vec<Binding>) -> NameList
        ensures { result ≡ bindings.items }
    {
        NameList {
            bindings,
            places: None,
        }
    }

    /// How many names there are.
    pub fn len(&self) -> usize
        ensures len { result ≡ length self.now }
        ensures small { result < 2 ^ 63 }
    {
        self.bindings.len()
    }

    /// Where a name stands first, or the number of names.
    pub fn place_of(&self, name: &str) -> usize
        ensures { result ≡ place_of self.now name.now }
    {
        match &self.places {
            None => place_of(&self.bindings, name),
            Some(places) => place_in(places, &self.bindings, name),
        }
    }

    /// The name at a place, or `None` past the last.
    #[inline(always)]
    pub fn at(&self, place: usize) -> Option<LentBinding<'_>>
        ensures { option_map lent result ≡ slice_get self.now place }
    {
        match self.bindings.get(place) {
            None => None,
            Some(binding) => Some(LentBinding {
                name: binding.name.as_str(),
                value: &binding.value,
                sort: binding.sort,
            }),
        }
    }

    /// Makes later look-ups quick. The first time it takes as long as some 50 look-ups of the last
    /// name.
    pub fn index(&mut self) -> Result<(), AllocError>
        ensures { self.new ≡ self.old }
    {
        if self.places.is_none() {
            let alloc = *self.bindings.allocator();
            self.places = Some(Box::new(alloc, places_of(alloc, &self.bindings)?)?);
        }
        Ok(())
    }

    /// A name more.
    pub fn push(&mut self, binding: Binding) -> Result<(), AllocError>
        ensures ok { OnOk result (self.new ≡ self.old ++ binding ∷ []) }
        ensures err { OnErr result (self.new ≡ self.old) }
    {
        if let Some(places) = &mut self.places {
            let alloc = *self.bindings.allocator();
            add_place(alloc, places, &self.bindings, binding.name.as_str())?;
        }
        self.bindings.push(binding)?;
        Ok(())
    }

    /// Drops the names past the first `count`.
    pub fn keep(&mut self, count: usize)
        ensures { self.new ≡ take count self.old }
    {
        self.bindings.truncate(count);
    }

    /// Gives the name at a place another value, where there is one.
    pub fn set_value(&mut self, place: usize, value: Data)
        ensures { self.new ≡ revalued self.old place value }
    {
        if place >= self.bindings.len() {
            drop(value);
            return;
        }
        let binding = &mut self.bindings[place];
        drop(mem::replace(&mut binding.value, value));
    }
}

/// Where a name stands first, or the number of names.
fn place_of(bindings: &[Binding], name: &str) -> usize
    ensures { result ≡ place_of bindings.now name.now }
{
    let mut place = 0;
    for binding in bindings {
        if name == binding.name.as_str() {
            return place;
        }
        place += 1;
    }
    place
}

/// The same, by what was found out of these bindings. A name that was dropped may have left a
/// place.
fn place_in(places: &BTreeMap<String, usize>, bindings: &[Binding], name: &str) -> usize
    ensures { Tells places.now bindings.now → result ≡ place_of bindings.now name.now }
{
    let Some(place) = places.get(name) else {
        return bindings.len();
    };
    let place = *place;
    if place < bindings.len() && name == bindings[place].name.as_str() {
        return place;
    }
    bindings.len()
}

/// Adds the place of a name that is to stand after these bindings, unless it stands among them.
fn add_place(
    alloc: Global,
    places: &mut BTreeMap<String, usize>,
    bindings: &[Binding],
    name: &str,
) -> Result<(), AllocError>
    ensures same { Tells places.old bindings.now → Tells places.new bindings.now }
    ensures added { OnOk result ((b : Binding) → b.name ≡ name.now
        → Tells places.old bindings.now → Tells places.new (bindings.now ++ b ∷ [])) }
{
    if place_in(places, bindings, name) == bindings.len() {
        places.insert(String::from_str(alloc, name)?, bindings.len())?;
    }
    Ok(())
}

/// Where each name of these bindings stands first.
fn places_of(alloc: Global, bindings: &[Binding]) -> Result<BTreeMap<String, usize>, AllocError>
    ensures { IfOk result (λ places. Tells places bindings.now) }
{
    let mut places = BTreeMap::new(alloc);
    for place in 0..bindings.len() {
        add_place(
            alloc,
            &mut places,
            &bindings[..place],
            bindings[place].name.as_str(),
        )?;
    }
    Ok(places)
}
