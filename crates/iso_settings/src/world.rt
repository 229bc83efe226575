ghost use Rattle.std.specs.Prelude.{◌≡◌, ◌++◌, ◌↔◌, IfOk, IsTrue, OnOk, codes, string_bytes};
ghost use Rattle.toml.specs.Parse.{parse_document};
ghost use Rattle.toml.specs.View.{table_view, view};
ghost use Rattle.iso_settings.specs.Leaves.{leaves_at, leaves_behind};
ghost use Rattle.iso_settings.specs.Readings.{Gives, GivesAs, IsFault};
ghost use Rattle.iso_settings.specs.Worlds.{is_long, is_printable, locale_of, table_of, text_of, texts_of, with_text, world_in};
ghost use Rattle.iso_settings.specs.declared.fault.SettingsFault.TheVariants.{OutOfRange, WrongValue};

use crate::fault::{SettingsError, out_of_range, wrong_value};
use crate::starts::{FileStarts, LocaleStart, PropertiesStart, file_starts};
use crate::table::read_table;
use iso_model::key::Key;
use iso_model::limits::TEXT_BYTES;
use iso_model::name_map::NameMap;
use iso_model::properties::Properties;
use iso_model::resource::{Resource, default_locale};
use iso_model::text::Text;
use std::alloc::{AllocError, Global};
use std::marker::Model;
use std::sync::Arc;
use toml::{Table, Value};

/// The values that resources start with. How they are kept stays hidden.
/// Each stands here once, and whoever looks at it alone shares it.
pub struct World {
    files: FileStarts,
    locale: LocaleStart,
    properties: PropertiesStart,
}

impl Drop for World {
    fn drop(self) {
        let World {
            files: _,
            locale: _,
            properties: _,
        } = self;
    }
}

impl Model for World {
    ghost use Rattle.iso_settings.specs.Worlds.{Start, start_code};

    ghost Value = { Start };

    ghost coded = { start_code };

    ghost view = { λ w. record { files = w.files; locale = w.locale; properties = w.properties } };
}

/// Reads a world from a TOML document.
pub fn read_world(alloc: Global, text: &str) -> Result<World, SettingsError>
    ensures { Gives (world_in (parse_document text.now)) result }
{
    let table = read_table(alloc, text)?;
    World::of_table(alloc, &table)
}

impl World {
    ghost use Rattle.std.specs.Arc.{arc_value};
    ghost use Rattle.iso_settings.specs.Worlds.{empty_start, starting_value_in, with_entries, with_entry};

    /// The world that says nothing.
    fn empty(alloc: Global) -> Result<World, AllocError>
        ensures { IfOk result (λ world. world ≡ empty_start) }
    {
        Ok(World {
            files: FileStarts::new(alloc),
            locale: LocaleStart::new(alloc, default_locale(alloc)?)?,
            properties: PropertiesStart::new(alloc, Properties::new(alloc))?,
        })
    }

    /// The world of a table.
    fn of_table(alloc: Global, table: &Table) -> Result<World, SettingsError>
        ensures { Gives (with_entries empty_start (table_view table.now)) result }
    {
        let mut world = World::empty(alloc)?;
        'entries: for (key, value) in table.iter() {
            world = world.with_entry(alloc, key.as_str(), value)?;
        }
        Ok(world)
    }

    /// This world, and what one top-level key says besides.
    fn with_entry(mut self, alloc: Global, key: &str, value: &Value) -> Result<World, SettingsError>
        ensures { Gives (with_entry self key.now (view value.now)) result }
    {
        self.read_entry(alloc, key, value)?;
        Ok(self)
    }

    /// Puts what one top-level key says in its place. After an error this world is of no use.
    fn read_entry(&mut self, alloc: Global, key: &str, value: &Value) -> Result<(), SettingsError>
        ensures { GivesAs (λ _. self.new) (with_entry self.old key.now (view value.now)) result }
    {
        if key == "files" {
            self.files = file_starts(alloc, table_of(alloc, key, value)?)?;
        } else if key == "locale" {
            self.locale = LocaleStart::new(alloc, locale_of(alloc, key, value)?)?;
        } else if key == "properties" {
            self.properties = PropertiesStart::new(alloc, table_of(alloc, key, value)?)?;
        } else {
            return Err(wrong_value(alloc, key));
        }
        Ok(())
    }

    /// The value that a key starts with. A file that the world doesn't name is missing.
    pub fn copy(&self, alloc: Global, key: &Key) -> Result<Resource, AllocError>
        ensures { IfOk result (λ value. value ≡ starting_value_in self.now key.now) }
    {
        let spelling = key.as_str();
        if spelling == "java.lang.System.properties" {
            Ok(Resource::Props(self.properties.properties().copy(alloc)?))
        } else if spelling == "java.util.Locale.default" {
            Ok(Resource::Locale(Text::copied(alloc, self.locale.as_str())?))
        } else if let Some(path) = spelling.strip_prefix("file:") {
            match self.files.get(path) {
                Some(start) => Ok(Resource::File(Some(Text::copied(alloc, start.as_str())?))),
                None => Ok(Resource::File(None)),
            }
        } else {
            Ok(Resource::Plain)
        }
    }

    /// The value that a key starts with, as `copy` gives it, but shared: a value that the world
    /// names stands in memory once, however many look at it. A file that the world doesn't name and
    /// a key without a value get an `Arc` of their own. Refused where memory runs out, or where
    /// `Arc` refuses a further owner.
    pub fn share(&self, alloc: Global, key: &Key) -> Result<Arc<Resource>, AllocError>
        ensures { IfOk result (λ value. arc_value value ≡ starting_value_in self.now key.now) }
    {
        let spelling = key.as_str();
        if spelling == "java.lang.System.properties" {
            self.properties.share()
        } else if spelling == "java.util.Locale.default" {
            self.locale.share()
        } else if let Some(path) = spelling.strip_prefix("file:") {
            match self.files.get(path) {
                Some(start) => start.share(),
                None => Ok(Arc::new(alloc, Resource::File(None))?),
            }
        } else {
            Ok(Arc::new(alloc, Resource::Plain)?)
        }
    }

    /// Whether two worlds say the same: every key starts with the same value, however they were
    /// written. Takes no memory. It goes over both worlds, so a caller who knows the answer
    /// otherwise needn't ask under a lock.
    pub fn same(&self, other: &World) -> bool
        ensures { IsTrue result ↔ (self.now ≡ other.now) }
    {
        self.locale.as_str() == other.locale.as_str()
            && self.files.same(&other.files)
            && self
                .properties
                .properties()
                .same(other.properties.properties())
    }
}

/// Whether a text is printable ASCII.
fn is_printable(text: &str) -> bool
    ensures { result ≡ is_printable text.now }
{
    for byte in text.as_bytes() {
        if *byte < 0x20 || *byte > 0x7E {
            return false;
        }
    }
    true
}

/// Whether there are more bytes than a text may have.
fn is_long(text: &str) -> bool
    ensures { result ≡ is_long text.now }
{
    text.len() > TEXT_BYTES as usize
}

/// The locale.
fn locale_of(alloc: Global, key: &str, value: &Value) -> Result<Text, SettingsError>
    ensures { Gives (locale_of key.now (view value.now)) result }
{
    match value {
        Value::String(text) if !is_printable(text) => Err(wrong_value(alloc, key)),
        Value::String(text) if is_long(text) => Err(out_of_range(alloc, key)),
        Value::String(text) => Ok(Text::copied(alloc, text)?),
        _ => Err(wrong_value(alloc, key)),
    }
}

/// A table of texts.
fn table_of(alloc: Global, top: &str, value: &Value) -> Result<NameMap<Text>, SettingsError>
    ensures { Gives (table_of top.now (view value.now)) result }
{
    match value {
        Value::Table(table) => {
            let mut path = String::new(alloc);
            let mut texts = NameMap::new(alloc);
            add_texts(alloc, top, &mut path, table, &mut texts)?;
            Ok(texts)
        }
        _ => Err(wrong_value(alloc, top)),
    }
}

/// Adds the texts of a table, whose keys are put behind a path. After an error path and texts are
/// of no use.
#[cycle(texts)]
fn add_texts(
    alloc: Global,
    top: &str,
    path: &mut String,
    table: &Table,
    texts: &mut NameMap<Text>,
) -> Result<(), SettingsError>
    ensures texts { GivesAs (λ _. texts.new)
        (texts_of top.now texts.old (leaves_behind (string_bytes path.old) (table_view table.now)))
        result }
    ensures path { OnOk result (string_bytes path.new ≡ string_bytes path.old) }
{
    let start = path.as_str().len();
    'members: for (name, value) in table.iter() {
        path.push_str(name.as_str())?;
        add_value(alloc, top, path, value, texts)?;
        path.truncate(start);
    }
    Ok(())
}

/// Adds the texts of what stands at a key.
#[cycle(texts)]
fn add_value(
    alloc: Global,
    top: &str,
    key: &mut String,
    value: &Value,
    texts: &mut NameMap<Text>,
) -> Result<(), SettingsError>
    ensures texts { GivesAs (λ _. texts.new)
        (texts_of top.now texts.old (leaves_at (string_bytes key.old) (view value.now))) result }
    ensures key { OnOk result (string_bytes key.new ≡ string_bytes key.old) }
{
    match value {
        Value::Table(table) => {
            let end = key.as_str().len();
            key.push_str(".")?;
            add_texts(alloc, top, key, table, texts)?;
            key.truncate(end);
            Ok(())
        }
        _ => add_text(alloc, top, key.as_str(), value, texts),
    }
}

/// Adds the text of a leaf. Tables nest up to some 6,500 deep, so what a leaf needs is kept out of
/// the walk's frames.
#[inline(never)]
fn add_text(
    alloc: Global,
    top: &str,
    key: &str,
    value: &Value,
    texts: &mut NameMap<Text>,
) -> Result<(), SettingsError>
    ensures { GivesAs (λ _. texts.new)
        (with_text top.now texts.old key.now (view value.now)) result }
{
    let text = text_of(alloc, top, texts, key, value)?;
    texts.set(String::from_str(alloc, key)?, text)?;
    Ok(())
}

/// The text of a leaf of a table, whose joined key is none of those read before.
fn text_of(
    alloc: Global,
    top: &str,
    before: &NameMap<Text>,
    key: &str,
    value: &Value,
) -> Result<Text, SettingsError>
    ensures { Gives (text_of top.now before.now key.now (view value.now)) result }
{
    let Value::String(text) = value else {
        return Err(wrong_value_in(alloc, top, key));
    };
    if !(is_printable(key) && is_printable(text)) || before.get(key).is_some() {
        return Err(wrong_value_in(alloc, top, key));
    }
    if is_long(key) || is_long(text) {
        return Err(out_of_range_in(alloc, top, key));
    }
    Ok(Text::copied(alloc, text)?)
}

/// The fault `WrongValue` at a joined key of the table `top`.
fn wrong_value_in(alloc: Global, top: &str, key: &str) -> SettingsError
    ensures { IsFault (WrongValue (top.now ++ codes "." ++ key.now)) result }
{
    match full_key(alloc, top, key) {
        Ok(full) => wrong_value(alloc, &full),
        Err(_) => SettingsError::OutOfMemory,
    }
}

/// The fault `OutOfRange` at a joined key of the table `top`.
fn out_of_range_in(alloc: Global, top: &str, key: &str) -> SettingsError
    ensures { IsFault (OutOfRange (top.now ++ codes "." ++ key.now)) result }
{
    match full_key(alloc, top, key) {
        Ok(full) => out_of_range(alloc, &full),
        Err(_) => SettingsError::OutOfMemory,
    }
}

/// A joined key with its top-level name.
fn full_key(alloc: Global, top: &str, key: &str) -> Result<String, AllocError>
    ensures { IfOk result (λ full. string_bytes full ≡ top.now ++ codes "." ++ key.now) }
{
    let mut full = String::from_str(alloc, top)?;
    full.push_str(".")?;
    full.push_str(key)?;
    Ok(full)
}
