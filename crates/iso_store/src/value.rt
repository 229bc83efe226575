ghost use Rattle.std.specs.Prelude.{◌≡◌, [], OnOk, OnErr, option_copied};
ghost use Rattle.iso_model.specs.Resources.{changed};
ghost use Rattle.iso_model.specs.Touch.{answer};
ghost use Rattle.iso_store.specs.Values.{resource_of};

use crate::layers::Layers;
use iso_model::resource::{Ask, Change, Resource};
use iso_model::text::Text;
use std::alloc::{AllocError, Global};

/// A locale and a file have no names: each is changed in this one place.
const NAMELESS: &str = "";

/// A resource's value: what it started as, which stays as it is, and over it what was changed.
#[derive(Drop)]
pub(crate) struct Value {
    pub start: Resource,
    pub layers: Layers,
}

impl Value {
    /// This value, of which nothing was changed.
    pub fn new(alloc: Global, start: Resource) -> Value
        ensures value { resource_of result ≡ start }
        ensures start { result.start ≡ start }
    {
        Value {
            start,
            layers: Layers::new(alloc),
        }
    }

    /// The text that is asked for, or `None` where the property is absent or the file missing, or
    /// where the value is of another kind.
    pub fn look(&self, ask: Ask<'_>) -> Option<&str>
        ensures { option_copied result ≡ answer (resource_of self.now) ask.entry }
    {
        match (&self.start, ask) {
            (Resource::Props(properties), Ask::Prop(name)) => {
                self.layers
                    .property(properties, name)
                    .map(|text| text.as_str())
            }
            (Resource::Locale(locale), Ask::Locale) => match self.layers.place(NAMELESS) {
                Some(Some(changed)) => Some(changed.as_str()),
                _ => Some(locale.as_str()),
            },
            (Resource::File(text), Ask::File) => match self.layers.place(NAMELESS) {
                Some(place) => place.as_ref().map(|text| text.as_str()),
                None => text.as_ref().map(|text| text.as_str()),
            },
            _ => None,
        }
    }

    /// Changes the value. A value of another kind stays as it is.
    pub fn change(&mut self, alloc: Global, change: Change) -> Result<(), AllocError>
        ensures ok { OnOk result (resource_of self.new ≡ changed change (resource_of self.old)) }
        ensures err { OnErr result (self.new ≡ self.old) }
        ensures start { self.new.start ≡ self.old.start }
    {
        match (&self.start, change) {
            (Resource::Props(_), Change::SetProp(name, text)) => {
                self.layers.put(alloc, name, Some(text))
            }
            (Resource::Props(_), Change::ClearProp(name)) => self.layers.put(alloc, name, None),
            (Resource::Locale(_), Change::SetLocale(text))
            | (Resource::File(_), Change::WriteFile(text)) => {
                self.layers.put(alloc, nameless(alloc), Some(text))
            }
            (Resource::File(_), Change::DeleteFile) => {
                self.layers.put(alloc, nameless(alloc), None)
            }
            _ => Ok(()),
        }
    }
}

/// The name of what has none. Takes no memory.
fn nameless(alloc: Global) -> Text
    ensures { result ≡ [] }
{
    Text::new(String::new(alloc))
}
