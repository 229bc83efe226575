//! Texts as TOML tables.
ghost use Rattle.std.specs.Prelude.{◌≡◌, Ok, Err, ok_or};
ghost use Rattle.toml.specs.Parse.{parse_document};
ghost use Rattle.toml.specs.View.{table_view};
ghost use Rattle.iso_settings.specs.Readings.{GivesAs};
ghost use Rattle.iso_settings.specs.declared.fault.SettingsFault.TheVariants.{NotToml};

use crate::fault::{SettingsError, SettingsFault};
use std::alloc::Global;
use toml::Table;

/// The table that a text is.
pub(crate) fn read_table(alloc: Global, text: &str) -> Result<Table, SettingsError>
    ensures { GivesAs table_view (ok_or (parse_document text.now) NotToml) result }
{
    match toml::table_from_str(alloc, text) {
        Ok(table) => Ok(table),
        Err(error) if error.is_memory() => Err(SettingsError::OutOfMemory),
        Err(_) => Err(SettingsError::Fault(SettingsFault::NotToml)),
    }
}
