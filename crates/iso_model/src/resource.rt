ghost use Rattle.std.specs.Prelude.{◌≡◌, IfOk, OnOk, OnErr, option_copied};
ghost use Rattle.iso_model.specs.Resources.{changed, default_locale, starting_value};
ghost use Rattle.iso_model.specs.Touch.{answer};

use crate::key::Key;
use crate::properties::Properties;
use crate::text::Text;
use std::alloc::{AllocError, Global};

/// The locale where the world says nothing of it.
pub fn default_locale(alloc: Global) -> Result<Text, AllocError>
    ensures { IfOk result (λ text. text ≡ default_locale) }
{
    Text::copied(alloc, "en")
}

/// The value of a resource.
#[derive(Drop)]
pub enum Resource {
    /// A map of texts.
    Props(Properties),
    Locale(Text),
    /// A file's text, or `None` where it is missing.
    File(Option<Text>),
    /// A lock without a value.
    Plain,
}

impl Resource {
    /// The value that a key starts with where nothing is said of it: no properties, the default
    /// locale, a missing file.
    pub fn starting(alloc: Global, key: &Key) -> Result<Resource, AllocError>
        ensures { IfOk result (λ value. value ≡ starting_value key.now) }
    {
        let spelling = key.as_str();
        if spelling == "java.lang.System.properties" {
            Ok(Resource::Props(Properties::new(alloc)))
        } else if spelling == "java.util.Locale.default" {
            Ok(Resource::Locale(default_locale(alloc)?))
        } else if spelling.as_bytes().starts_with(b"file:") {
            Ok(Resource::File(None))
        } else {
            Ok(Resource::Plain)
        }
    }

    /// The text that is asked for, or `None` where the property is absent or the file missing, or
    /// where the value is of another kind.
    pub fn look(&self, ask: Ask<'_>) -> Option<&str>
        ensures { option_copied result ≡ answer self.now ask.entry }
    {
        match (self, ask) {
            (Resource::Props(properties), Ask::Prop(name)) => {
                properties.get(name).map(|text| text.as_str())
            }
            (Resource::Locale(locale), Ask::Locale) => Some(locale.as_str()),
            (Resource::File(Some(text)), Ask::File) => Some(text.as_str()),
            _ => None,
        }
    }

    /// Changes the value. One of another kind stays as it is, and once out of memory any does.
    pub fn change(&mut self, change: Change) -> Result<(), AllocError>
        ensures ok { OnOk result (self.new ≡ changed change self.old) }
        ensures err { OnErr result (self.new ≡ self.old) }
    {
        match (self, change) {
            (Resource::Props(properties), Change::SetProp(name, text)) => {
                properties.set(name.into_string(), text)?;
            }
            (Resource::Props(properties), Change::ClearProp(name)) => {
                properties.clear(name.as_str());
            }
            (Resource::Locale(locale), Change::SetLocale(text)) => *locale = text,
            (Resource::File(file), Change::WriteFile(text)) => *file = Some(text),
            (Resource::File(file), Change::DeleteFile) => *file = None,
            _ => {}
        }
        Ok(())
    }
}

/// What is asked of a resource.
#[derive(Clone, Copy)]
pub enum Ask<'a> {
    Prop(&'a str),
    Locale,
    File,
}

/// A change of a resource.
#[derive(Drop)]
pub enum Change {
    SetProp(Text, Text),
    /// An absent property stays absent.
    ClearProp(Text),
    SetLocale(Text),
    /// Makes the file or replaces its text.
    WriteFile(Text),
    DeleteFile,
}
