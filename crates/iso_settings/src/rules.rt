//! How the value at a key of the settings is read.
ghost use Rattle.std.specs.Prelude.{◌≡◌, IfOk, IfSome, option_map, if◌then◌else◌};
ghost use Rattle.std.specs.Int.{IsInRange};
ghost use Rattle.std.specs.Str.{all_ascii_digits};
ghost use Rattle.toml.specs.Data.{string};
ghost use Rattle.toml.specs.View.{table_view, view};
ghost use Rattle.std.specs.Str.Parse.{digits_value};
ghost use Rattle.iso_settings.specs.Leaves.{leaves, values_at};
ghost use Rattle.iso_settings.specs.Readings.{Gives, GivesAs};
ghost use Rattle.iso_settings.specs.Settings.{setting, only_value, flag, mode, strategy, count, lifecycle, in_range, is_numeral};

use crate::fault::{SettingsError, out_of_range, unsupported, wrong_value};
use crate::find::{Found, find};
use crate::settings::Strategy;
use iso_model::script::Mode;
use std::alloc::Global;
use toml::{Table, Value};

/// The value at a key, which no second spelling may reach.
fn value_at<'a>(
    alloc: Global,
    table: &'a Table,
    key: &str,
) -> Result<Option<&'a Value>, SettingsError>
    ensures { GivesAs (option_map (λ v. view v.now))
        (only_value key.now (values_at key.now (leaves (table_view table.now)))) result }
{
    match find(table, key) {
        Found::Nothing => Ok(None),
        Found::One(value) => Ok(Some(value)),
        Found::Several => Err(wrong_value(alloc, key)),
    }
}

/// A truth value at a key.
pub(crate) fn flag(alloc: Global, table: &Table, key: &str) -> Result<Option<bool>, SettingsError>
    ensures { Gives (setting flag (leaves (table_view table.now)) key.now) result }
{
    match value_at(alloc, table, key)? {
        None => Ok(None),
        Some(Value::Boolean(value)) => Ok(Some(*value)),
        Some(Value::String(text)) if text.eq_ignore_ascii_case("true") => Ok(Some(true)),
        Some(Value::String(text)) if text.eq_ignore_ascii_case("false") => Ok(Some(false)),
        Some(_) => Err(wrong_value(alloc, key)),
    }
}

/// An execution mode at a key.
pub(crate) fn mode(alloc: Global, table: &Table, key: &str) -> Result<Option<Mode>, SettingsError>
    ensures { Gives (setting mode (leaves (table_view table.now)) key.now) result }
{
    match value_at(alloc, table, key)? {
        None => Ok(None),
        Some(Value::String(text)) if text.eq_ignore_ascii_case("same_thread") => Ok(Some(
            Mode::SameThread,
        )),
        Some(Value::String(text)) if text.eq_ignore_ascii_case("concurrent") => Ok(Some(
            Mode::Concurrent,
        )),
        Some(_) => Err(wrong_value(alloc, key)),
    }
}

/// A strategy at a key.
pub(crate) fn strategy(
    alloc: Global,
    table: &Table,
    key: &str,
) -> Result<Option<Strategy>, SettingsError>
    ensures { Gives (setting strategy (leaves (table_view table.now)) key.now) result }
{
    match value_at(alloc, table, key)? {
        None => Ok(None),
        Some(Value::String(text)) => Ok(Some(strategy_named(alloc, key, text)?)),
        Some(_) => Err(wrong_value(alloc, key)),
    }
}

/// The strategy of this name.
fn strategy_named(alloc: Global, key: &str, name: &str) -> Result<Strategy, SettingsError>
    ensures { Gives (strategy key.now (string name.now)) result }
{
    if name.eq_ignore_ascii_case("dynamic") {
        Ok(Strategy::Dynamic)
    } else if name.eq_ignore_ascii_case("fixed") {
        Ok(Strategy::Fixed)
    } else if name.eq_ignore_ascii_case("custom") {
        Err(unsupported(alloc, key))
    } else {
        Err(wrong_value(alloc, key))
    }
}

/// Whether a text has digits alone.
fn has_digits_alone(text: &str) -> bool
    ensures { result ≡ all_ascii_digits text.now }
{
    for byte in text.as_bytes() {
        if !byte.is_ascii_digit() {
            return false;
        }
    }
    true
}

/// Whether a text is one to nine digits.
fn is_numeral(text: &str) -> bool
    ensures { result ≡ is_numeral text.now }
{
    1 <= text.len() && text.len() <= 9 && has_digits_alone(text)
}

/// The number that one to nine digits write.
fn numeral(text: &str) -> Option<u32>
    ensures { result ≡ (if is_numeral text.now then Some (digits_value 10 text.now) else None) }
{
    if !is_numeral(text) {
        return None;
    }
    text.parse().ok()
}

/// A number that is to be 1 to 64.
fn in_range(alloc: Global, key: &str, number: i64) -> Result<u32, SettingsError>
    ensures exact { Gives (in_range key.now number) result }
    ensures within { IfOk result (IsInRange 1 64) }
{
    if number < 1 || number > 64 {
        return Err(out_of_range(alloc, key));
    }
    Ok(number as u32)
}

/// A whole number of 1 to 64 at a key.
pub(crate) fn count(alloc: Global, table: &Table, key: &str) -> Result<Option<u32>, SettingsError>
    ensures exact { Gives (setting count (leaves (table_view table.now)) key.now) result }
    ensures within { IfOk result (λ number. IfSome number (IsInRange 1 64)) }
{
    let number = match value_at(alloc, table, key)? {
        None => return Ok(None),
        Some(Value::Integer(number)) => *number,
        Some(Value::String(text)) => match numeral(text) {
            Some(number) => i64::from(number),
            None => return Err(wrong_value(alloc, key)),
        },
        Some(_) => return Err(wrong_value(alloc, key)),
    };
    Ok(Some(in_range(alloc, key, number)?))
}

/// The lifecycle at a key, of which there is one.
pub(crate) fn lifecycle(
    alloc: Global,
    table: &Table,
    key: &str,
) -> Result<Option<()>, SettingsError>
    ensures { Gives (setting lifecycle (leaves (table_view table.now)) key.now) result }
{
    match value_at(alloc, table, key)? {
        None => Ok(None),
        Some(Value::String(text)) if text.eq_ignore_ascii_case("per_method") => Ok(Some(())),
        Some(Value::String(_)) => Err(unsupported(alloc, key)),
        Some(_) => Err(wrong_value(alloc, key)),
    }
}
