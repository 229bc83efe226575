//! Visible names with their values, in layers.
ghost use Rattle.std.specs.Prelude.{◌≡◌, ◌≤◌, ◌<◌, ◌+◌, ◌∷◌, ◌++◌, [], length, take, drop, option_map, Some, IfOk, IfSome, OnOk, OnErr};
ghost use Rattle.std.specs.List.{slice_get};
ghost use Rattle.iso_model.specs.NameLayers.{in_layers, IsAt};
ghost use Rattle.iso_model.specs.Names.{lent, place_of, revalued};

use crate::data::Data;
use crate::name_layer::NameLayer;
use crate::name_list::NameList;
use crate::names::{Binding, LentBinding};
use crate::shared_names::SharedNames;
use std::alloc::{AllocError, Global};
use std::marker::Model;
use std::mem;

/// Visible names with their values, outermost first: layers of shared names, and after them names
/// of their own.
#[derive(Drop)]
pub struct Bindings {
    layers: Vec<NameLayer>,
    /// How many names the layers have.
    outer: usize,
    own: NameList,
}

impl Model for Bindings {
    ghost use Rattle.std.specs.Prelude.{◌≡◌, ◌<◌, ◌+◌, ◌^◌, ◌++◌, List, length};
    ghost use Rattle.iso_model.specs.declared.names.Binding.{Binding};
    ghost use Rattle.iso_model.specs.NameLayers.{in_layers};

    ghost Value = { List Binding };

    ghost view = { λ b. in_layers b.layers.items ++ b.own };

    ghost invariant = { λ b. record {
      counted : b.outer ≡ length (in_layers b.layers.items);
      fits : b.outer + length b.own < 2 ^ 64;
    } };
}

impl Bindings {
    /// These names, none of them shared.
    pub fn new(alloc: Global, bindings: Vec<Binding>) -> Bindings
        ensures { result ≡ bindings.items }
    {
        Bindings {
            layers: Vec::new(alloc),
            outer: 0,
            own: NameList::new(bindings),
        }
    }

    /// These shared names.
    pub fn shared(alloc: Global, names: SharedNames) -> Result<Bindings, AllocError>
        ensures { IfOk result (λ b. b ≡ names) }
    {
        let layer = NameLayer::new(alloc, names);
        let outer = layer.len();
        let mut layers = Vec::new(alloc);
        layers.push(layer)?;
        Ok(Bindings {
            layers,
            outer,
            own: NameList::new(Vec::new(alloc)),
        })
    }

    /// How many names there are.
    pub fn len(&self) -> usize
        ensures { result ≡ length self.now }
    {
        self.outer + self.own.len()
    }

    /// Where a name stands first, or the number of names.
    pub fn place_of(&self, name: &str) -> usize
        ensures { result ≡ place_of self.now name.now }
    {
        let mut before = 0;
        'layers: for layer in &self.layers {
            let place = layer.place_of(name);
            if place < layer.len() {
                return before + place;
            }
            before += place;
        }
        before + self.own.place_of(name)
    }

    /// The name at a place, or `None` past the last.
    #[inline(always)]
    pub fn at(&self, place: usize) -> Option<LentBinding<'_>>
        ensures { option_map lent result ≡ slice_get self.now place }
    {
        if place >= self.outer {
            return self.own.at(place - self.outer);
        }
        self.shared_at(place)
    }

    /// The name at a place, where it isn't shared.
    #[inline(always)]
    pub(crate) fn own_at(&self, place: usize) -> Option<LentBinding<'_>>
        ensures { IfSome result (λ b. slice_get self.now place ≡ Some (lent b)) }
    {
        if place < self.outer {
            return None;
        }
        self.own.at(place - self.outer)
    }

    /// The same, over the layers too. Few look-ups are of shared names, so this stays out of what
    /// each look-up does.
    #[inline(never)]
    fn shared_at(&self, place: usize) -> Option<LentBinding<'_>>
        ensures { option_map lent result ≡ slice_get self.now place }
    {
        let (layer, place) = layer_at(&self.layers, place);
        match self.layers.get(layer) {
            None => self.own.at(place),
            Some(layer) => layer.at(place),
        }
    }

    /// Makes later look-ups of the names that aren't shared quick. The first time it takes as long
    /// as some 50 look-ups of the last.
    pub fn index(&mut self) -> Result<(), AllocError>
        ensures { self.new ≡ self.old }
    {
        self.own.index()
    }

    /// A name more.
    pub fn push(&mut self, binding: Binding) -> Result<(), AllocError>
        ensures ok { OnOk result (self.new ≡ self.old ++ binding ∷ []) }
        ensures err { OnErr result (self.new ≡ self.old) }
    {
        if self.len() == usize::MAX {
            return Err(AllocError);
        }
        self.own.push(binding)
    }

    /// Gives the name at a place another value, where there is one. Memory is taken for a shared
    /// name alone.
    pub fn set_value(&mut self, place: usize, value: Data) -> Result<(), AllocError>
        ensures ok { OnOk result (self.new ≡ revalued self.old place value) }
        ensures err { OnErr result (self.new ≡ self.old) }
    {
        if place >= self.outer {
            self.own.set_value(place - self.outer, value);
            return Ok(());
        }
        self.set_shared_value(place, value)
    }

    /// The same, over the layers too.
    #[inline(never)]
    fn set_shared_value(&mut self, place: usize, value: Data) -> Result<(), AllocError>
        ensures ok { OnOk result (self.new ≡ revalued self.old place value) }
        ensures err { OnErr result (self.new ≡ self.old) }
    {
        let (layer, place) = layer_at(&self.layers, place);
        if layer < self.layers.len() {
            let layer = &mut self.layers[layer];
            return layer.set_value(place, value);
        }
        self.own.set_value(place, value);
        Ok(())
    }

    /// Drops the names past the first `count`.
    pub fn keep(&mut self, count: usize)
        ensures { self.new ≡ take count self.old }
    {
        if count >= self.outer {
            self.own.keep(count - self.outer);
            return;
        }
        let (index, inside) = layer_at(&self.layers, count);
        let layer = &mut self.layers[index];
        layer.keep(inside);
        self.layers.truncate(index + 1);
        self.outer = count;
        self.own.keep(0);
    }

    /// Adds names after these.
    pub fn append(&mut self, alloc: Global, more: Bindings) -> Result<(), AllocError>
        ensures ok { OnOk result (self.new ≡ self.old ++ more) }
        ensures err { OnErr result (self.new ≡ self.old) }
    {
        if self.own.len() > 0 {
            return self.append_all_copies(alloc, &more);
        }
        if self.outer.checked_add(more.len()).is_none() {
            return Err(AllocError);
        }
        let Bindings { layers, outer, own } = more;
        let mut layers = layers;
        self.layers.append(&mut layers)?;
        self.outer += outer;
        self.own = own;
        Ok(())
    }

    /// Adds names that are equal to these.
    fn append_all_copies(&mut self, alloc: Global, more: &Bindings) -> Result<(), AllocError>
        ensures ok { OnOk result (self.new ≡ self.old ++ more.now) }
        ensures err { OnErr result (self.new ≡ self.old) }
    {
        let count = self.len();
        let added = self.append_copies(alloc, more);
        if added.is_err() {
            self.keep(count);
        }
        added
    }

    /// Adds names that are equal to these, or some of them where memory runs out.
    fn append_copies(&mut self, alloc: Global, more: &Bindings) -> Result<(), AllocError>
        ensures ok { OnOk result (self.new ≡ self.old ++ more.now) }
        ensures first { take (length self.old) self.new ≡ self.old }
    {
        for place in 0..more.len() {
            self.push(more.copy_at(alloc, place)?)?;
        }
        Ok(())
    }

    /// A name that is equal to the one at a place.
    fn copy_at(&self, alloc: Global, place: usize) -> Result<Binding, AllocError>
        requires { place < length self.now }
        ensures { IfOk result (λ b. slice_get self.now place ≡ Some b) }
    {
        let Some(binding) = self.at(place) else {
            unreachable!();
        };
        binding.copy(alloc)
    }

    /// Names that are equal to those past the first `count`.
    pub fn copies_past(&self, alloc: Global, count: usize) -> Result<Vec<Binding>, AllocError>
        requires { count ≤ length self.now }
        ensures { IfOk result (λ copies. copies.items ≡ drop count self.now) }
    {
        let mut copies = Vec::new(alloc);
        for place in count..self.len() {
            copies.push(self.copy_at(alloc, place)?)?;
        }
        Ok(copies)
    }

    /// Takes off the names past the first `count`. Whole layers move; where `count` is inside of
    /// one, the names past it are copied.
    pub fn split_off(&mut self, alloc: Global, count: usize) -> Result<Bindings, AllocError>
        requires { count ≤ length self.old }
        ensures first { OnOk result (self.new ≡ take count self.old) }
        ensures err { OnErr result (self.new ≡ self.old) }
        ensures past { IfOk result (λ past. past ≡ drop count self.old) }
    {
        let (layer, inside) = layer_at(&self.layers, count);
        if inside > 0 {
            let past = self.copies_past(alloc, count)?;
            self.keep(count);
            return Ok(Bindings::new(alloc, past));
        }
        let layers = self.layers.split_off(layer)?;
        let past = Bindings {
            layers,
            outer: self.outer - count,
            own: mem::replace(&mut self.own, NameList::new(Vec::new(alloc))),
        };
        self.outer = count;
        Ok(past)
    }
}

/// The layer that a place is in, and where in that: the number of layers for a place past their
/// names.
fn layer_at(layers: &[NameLayer], place: usize) -> (usize, usize)
    ensures { IsAt layers.now place result.0 result.1 }
{
    let mut place = place;
    for index in 0..layers.len() {
        let len = layers[index].len();
        if place < len {
            return (index, place);
        }
        place -= len;
    }
    (layers.len(), place)
}
