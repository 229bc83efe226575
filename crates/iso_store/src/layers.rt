ghost use Rattle.std.specs.Prelude.{◌≡◌, [], ℕ, List, IfOk, OnOk, OnErr, Some, bytes_eq, cond, option_copied};
ghost use Rattle.std.specs.FinMap as map;
ghost use Rattle.iso_store.specs.Layers.{place_in, properties_over};

use crate::places::Places;
use iso_model::properties::Properties;
use iso_model::text::Text;
use std::alloc::{AllocError, Global};
use std::marker::Model;
use std::sync::Arc;

/// What was changed of a value, in layers, the newest first. In a name's place stands the text that
/// it was given, or none where it was cleared; the newest layer that has a place counts. Layers
/// that others share are never changed.
pub(crate) struct Layers {
    layers: Vec<Arc<Places>>,
}

impl Drop for Layers {
    fn drop(self) {
        let Layers { layers: _ } = self;
    }
}

impl Model for Layers {
    ghost use Rattle.std.specs.Prelude.{List, map};
    ghost use Rattle.std.specs.Arc.{arc_value};
    ghost use Rattle.std.specs.Coded.{coded_list};
    ghost use Rattle.iso_store.specs.Places.{Places, places_code};

    ghost Value = { List Places };

    ghost coded = { coded_list places_code };

    ghost view = { λ l. map arc_value l.layers.items };
}

impl Layers {
    /// Nothing was changed.
    pub fn new(alloc: Global) -> Layers
        ensures { result ≡ [] }
    {
        Layers {
            layers: Vec::new(alloc),
        }
    }

    /// What is in a name's place, or `None` where it has none.
    pub fn place(&self, name: &str) -> Option<&Option<Text>>
        ensures { option_copied result ≡ place_in self.now name.now }
    {
        for layer in &self.layers {
            if let Some(place) = layer.get(name) {
                return Some(place);
            }
        }
        None
    }

    /// The text of a property, or `None` where it is absent: what is in its place, or else what it
    /// started with.
    pub fn property<'a>(&'a self, start: &'a Properties, name: &str) -> Option<&'a Text>
        ensures { option_copied result ≡ map.get (properties_over self.now start.now) name.now }
    {
        match self.place(name) {
            Some(place) => place.as_ref(),
            None => start.get(name),
        }
    }

    /// Puts a text, or none, into a name's place. It stands in the newest layer, or in a new one
    /// where others share that.
    pub fn put(&mut self, alloc: Global, name: Text, text: Option<Text>) -> Result<(), AllocError>
        ensures ok { OnOk result ((q : List ℕ) → place_in self.new q
            ≡ cond (bytes_eq q name) (Some text) (place_in self.old q)) }
        ensures err { OnErr result (self.new ≡ self.old) }
    {
        let name = name.into_string();
        if let Some(newest) = self.layers.first_mut()
            && let Some(places) = Arc::get_mut(newest)
        {
            places.set(name, text)?;
            return Ok(());
        }
        let mut places = Places::new(alloc);
        places.set(name, text)?;
        self.layers.insert(0, Arc::new(alloc, places)?)?;
        Ok(())
    }

    /// The same layers, which both share from now on.
    pub fn share(&self, alloc: Global) -> Result<Layers, AllocError>
        ensures { IfOk result (λ l. l ≡ self.now) }
    {
        let mut layers = Vec::with_capacity(alloc, self.layers.len())?;
        'layers: for layer in &self.layers {
            layers.push(layer.clone()?)?;
        }
        Ok(Layers { layers })
    }
}
