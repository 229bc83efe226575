//! Starting values that the world names. Each is kept once, and all who look at it share it.
ghost use Rattle.std.specs.Prelude.{◌≡◌, ℕ, IfOk, List, Some};
ghost use Rattle.std.specs.Arc.{arc_value};
ghost use Rattle.iso_model.specs.declared.resource.Resource.TheVariants.{File, Locale, Props};

use iso_model::name_map::{NameMap, Same};
use iso_model::properties::Properties;
use iso_model::resource::Resource;
use iso_model::text::Text;
use std::alloc::{AllocError, Global};
use std::marker::Model;
use std::sync::Arc;

/// The starting value of a file that is there, which contracts see as its text.
#[derive(Drop)]
pub(crate) struct FileStart {
    value: Arc<Resource>,
}

impl Model for FileStart {
    ghost use Rattle.std.specs.Prelude.{◌≡◌, List, Some, ℕ};
    ghost use Rattle.std.specs.Arc.{arc_value};
    ghost use Rattle.iso_model.specs.declared.resource.Resource.TheVariants.{File};
    ghost use Rattle.iso_settings.specs.Starts.{file_in};

    ghost Value = { List ℕ };

    ghost view = { λ s. file_in (arc_value s.value) };

    ghost invariant = { λ s. arc_value s.value ≡ File (Some (file_in (arc_value s.value))) };
}

impl FileStart {
    /// The starting value of a file with this text.
    pub fn new(alloc: Global, text: Text) -> Result<FileStart, AllocError>
        ensures { IfOk result (λ s. s ≡ text) }
    {
        Ok(FileStart {
            value: Arc::new(alloc, Resource::File(Some(text)))?,
        })
    }

    /// The text.
    pub fn as_str(&self) -> &str
        ensures { result.now ≡ self.now }
    {
        match &*self.value {
            Resource::File(Some(text)) => text.as_str(),
            _ => unreachable!(),
        }
    }

    /// A further owner of the value. Refused where `Arc` refuses one.
    pub fn share(&self) -> Result<Arc<Resource>, AllocError>
        ensures { IfOk result (λ value. arc_value value ≡ File (Some self.now)) }
    {
        Arc::try_clone(&self.value)
    }
}

impl Same for FileStart {
    fn same(&self, other: &FileStart) -> bool {
        self.as_str() == other.as_str()
    }
}

/// The starting value of the locale, which contracts see as its text.
#[derive(Drop)]
pub(crate) struct LocaleStart {
    value: Arc<Resource>,
}

impl Model for LocaleStart {
    ghost use Rattle.std.specs.Prelude.{◌≡◌, List, ℕ};
    ghost use Rattle.std.specs.Arc.{arc_value};
    ghost use Rattle.iso_model.specs.declared.resource.Resource.TheVariants.{Locale};
    ghost use Rattle.iso_settings.specs.Starts.{locale_in};

    ghost Value = { List ℕ };

    ghost view = { λ s. locale_in (arc_value s.value) };

    ghost invariant = { λ s. arc_value s.value ≡ Locale (locale_in (arc_value s.value)) };
}

impl LocaleStart {
    /// The starting value of a locale with this text.
    pub fn new(alloc: Global, text: Text) -> Result<LocaleStart, AllocError>
        ensures { IfOk result (λ s. s ≡ text) }
    {
        Ok(LocaleStart {
            value: Arc::new(alloc, Resource::Locale(text))?,
        })
    }

    /// The text.
    pub fn as_str(&self) -> &str
        ensures { result.now ≡ self.now }
    {
        match &*self.value {
            Resource::Locale(text) => text.as_str(),
            _ => unreachable!(),
        }
    }

    /// A further owner of the value. Refused where `Arc` refuses one.
    pub fn share(&self) -> Result<Arc<Resource>, AllocError>
        ensures { IfOk result (λ value. arc_value value ≡ Locale self.now) }
    {
        Arc::try_clone(&self.value)
    }
}

/// The starting value of the properties, which contracts see as the map of their texts.
#[derive(Drop)]
pub(crate) struct PropertiesStart {
    value: Arc<Resource>,
}

impl Model for PropertiesStart {
    ghost use Rattle.std.specs.Prelude.{◌≡◌};
    ghost use Rattle.std.specs.Arc.{arc_value};
    ghost use Rattle.iso_model.specs.Properties.{Map};
    ghost use Rattle.iso_model.specs.declared.resource.Resource.TheVariants.{Props};
    ghost use Rattle.iso_settings.specs.Starts.{properties_in};
    ghost use Rattle.iso_settings.specs.Worlds.{map_code};

    ghost Value = { Map };

    ghost coded = { map_code };

    ghost view = { λ s. properties_in (arc_value s.value) };

    ghost invariant = { λ s. arc_value s.value ≡ Props (properties_in (arc_value s.value)) };
}

impl PropertiesStart {
    /// The starting value of these properties.
    pub fn new(alloc: Global, properties: Properties) -> Result<PropertiesStart, AllocError>
        ensures { IfOk result (λ s. s ≡ properties) }
    {
        Ok(PropertiesStart {
            value: Arc::new(alloc, Resource::Props(properties))?,
        })
    }

    /// The properties.
    pub fn properties(&self) -> &Properties
        ensures { result.now ≡ self.now }
    {
        match &*self.value {
            Resource::Props(properties) => properties,
            _ => unreachable!(),
        }
    }

    /// A further owner of the value. Refused where `Arc` refuses one.
    pub fn share(&self) -> Result<Arc<Resource>, AllocError>
        ensures { IfOk result (λ value. arc_value value ≡ Props self.now) }
    {
        Arc::try_clone(&self.value)
    }
}

/// The starting values of the files that are there, by their paths. Contracts see the texts by the
/// paths.
pub(crate) type FileStarts = NameMap<FileStart>;

/// The starting values of files with these paths and texts. Copies neither.
pub(crate) fn file_starts(alloc: Global, texts: NameMap<Text>) -> Result<FileStarts, AllocError>
    ensures { IfOk result (λ files. files ≡ texts) }
{
    let mut files = FileStarts::new(alloc);
    'entries: for (path, text) in texts {
        files.set(path, FileStart::new(alloc, text)?)?;
    }
    Ok(files)
}
