//! What settings have at their keys, as it is told.
ghost use Rattle.std.specs.Prelude.{◌≡◌, option_map};
ghost use Rattle.std.specs.Str.{all_ascii_digits};
ghost use Rattle.iso_explain_settings.specs.Chosen.{count_at, count_of, default_text, file_origin, flag_of, is_fixed_at, is_fixed_in, is_fixed_word, lifecycle_of, mode_of, mode_word, numeral_of, setting_text, strategy_of, told_at, told_of, unused};
ghost use Rattle.iso_hints.specs.Settings.{origin_text, setting_line, value_text};
ghost use Rattle.iso_settings.specs.Leaves.{leaves};
ghost use Rattle.iso_settings.specs.Settings.{is_numeral};
ghost use Rattle.toml.specs.View.{table_view, view};

use crate::keys::{CLASSES_MODE, ENABLED, FACTOR, LIFECYCLE, MODE, PARALLELISM, STRATEGY};
use crate::wanted::{Wanted, settings_wanted};
use iso_hints::setting::{Origin, Setting, Value as Told};
use iso_model::script::Mode;
use iso_settings::find::{Found, find};
use toml::{Table, Value};

/// The value at a key, if it is one that the key takes.
pub(crate) fn told_at(table: &Table, key: &str) -> Option<Told<'static>>
    ensures { option_map value_text result ≡ told_at key.now (leaves (table_view table.now)) }
{
    match find(table, key) {
        Found::One(value) => told_of(settings_wanted(key), value),
        Found::Nothing | Found::Several => None,
    }
}

/// The number at a key, if there is one that the key takes.
pub(crate) fn count_at(table: &Table, key: &str) -> Option<u32>
    ensures { result ≡ count_at key.now (leaves (table_view table.now)) }
{
    match find(table, key) {
        Found::One(value) => count_of(value),
        Found::Nothing | Found::Several => None,
    }
}

/// Whether the fixed strategy is chosen.
pub(crate) fn is_fixed(table: &Table) -> bool
    ensures { result ≡ is_fixed_in (leaves (table_view table.now)) }
{
    is_fixed_at(table, STRATEGY)
}

/// Whether the word of the fixed strategy stands at a key.
fn is_fixed_at(table: &Table, key: &str) -> bool
    ensures { result ≡ is_fixed_at key.now (leaves (table_view table.now)) }
{
    match find(table, key) {
        Found::One(value) => is_fixed_word(value),
        Found::Nothing | Found::Several => false,
    }
}

/// Whether a value is the word of the fixed strategy.
fn is_fixed_word(value: &Value) -> bool
    ensures { result ≡ is_fixed_word (view value.now) }
{
    match value {
        Value::String(text) => text.eq_ignore_ascii_case("fixed"),
        _ => false,
    }
}

/// A value, if it is one that is taken.
fn told_of(wanted: Wanted, value: &Value) -> Option<Told<'static>>
    ensures { option_map value_text result ≡ told_of wanted (view value.now) }
{
    match wanted {
        Wanted::Flag => flag_of(value),
        Wanted::Mode => mode_of(value),
        Wanted::Strategy => strategy_of(value),
        Wanted::Count => count_told(value),
        Wanted::Lifecycle => lifecycle_of(value),
        Wanted::Text | Wanted::Table | Wanted::Nothing => None,
    }
}

/// A truth value.
fn flag_of(value: &Value) -> Option<Told<'static>>
    ensures { option_map value_text result ≡ flag_of (view value.now) }
{
    match value {
        Value::Boolean(flag) => Some(Told::Flag(*flag)),
        Value::String(text) => Some(Told::Flag(text.eq_ignore_ascii_case("true"))),
        _ => None,
    }
}

/// An execution mode.
fn mode_of(value: &Value) -> Option<Told<'static>>
    ensures { option_map value_text result ≡ mode_of (view value.now) }
{
    match value {
        Value::String(text) if text.eq_ignore_ascii_case("concurrent") => Some(Told::Word(
            "concurrent",
        )),
        Value::String(_) => Some(Told::Word("same_thread")),
        _ => None,
    }
}

/// A strategy.
fn strategy_of(value: &Value) -> Option<Told<'static>>
    ensures { option_map value_text result ≡ strategy_of (view value.now) }
{
    match value {
        Value::String(text) if text.eq_ignore_ascii_case("fixed") => Some(Told::Word("fixed")),
        Value::String(_) => Some(Told::Word("dynamic")),
        _ => None,
    }
}

/// The lifecycle, of which there is one.
fn lifecycle_of(value: &Value) -> Option<Told<'static>>
    ensures { option_map value_text result ≡ lifecycle_of (view value.now) }
{
    match value {
        Value::String(_) => Some(Told::Word("per_method")),
        _ => None,
    }
}

/// A number as a value.
fn count_told(value: &Value) -> Option<Told<'static>>
    ensures { option_map value_text result ≡ told_of Wanted.Count (view value.now) }
{
    match count_of(value) {
        Some(number) => Some(Told::Number(number)),
        None => None,
    }
}

/// A whole number, 1 to 64, or a text of one to nine digits.
fn count_of(value: &Value) -> Option<u32>
    ensures { result ≡ count_of (view value.now) }
{
    match value {
        Value::Integer(number) if 1 <= *number && *number <= 64 => Some(*number as u32),
        Value::String(text) => numeral(text),
        _ => None,
    }
}

/// The number that one to nine digits write.
fn numeral(text: &str) -> Option<u32>
    ensures { result ≡ numeral_of text.now }
{
    if !is_numeral(text) {
        return None;
    }
    text.parse().ok()
}

/// Whether a text is one to nine digits.
fn is_numeral(text: &str) -> bool
    ensures { result ≡ is_numeral text.now }
{
    1 <= text.len() && text.len() <= 9 && has_digits_alone(text)
}

/// Whether a text has digits alone.
fn has_digits_alone(text: &str) -> bool
    ensures { result ≡ all_ascii_digits text.now }
{
    for byte in text.as_bytes() {
        if !byte.is_ascii_digit() {
            return false;
        }
    }
    true
}

/// Why the value at a key isn't used, if it isn't.
pub(crate) fn unused(key: &str, is_parallel: bool, is_fixed: bool) -> Option<&'static str>
    ensures { option_map (λ why. why.now) result ≡ unused key.now is_parallel is_fixed }
{
    if key == ENABLED || key == LIFECYCLE {
        None
    } else if !is_parallel {
        Some("parallel execution is off")
    } else if key == FACTOR && is_fixed {
        Some("strategy is fixed")
    } else if key == PARALLELISM && !is_fixed {
        Some("strategy is dynamic")
    } else {
        None
    }
}

/// What a key has that isn't in the file.
fn default_value(key: &str, default_mode: Mode) -> Option<Told<'static>>
    ensures { option_map value_text result ≡ default_text key.now default_mode }
{
    if key == ENABLED {
        Some(Told::Flag(false))
    } else if key == MODE {
        Some(Told::Word("same_thread"))
    } else if key == CLASSES_MODE {
        Some(Told::Word(mode_word(default_mode)))
    } else if key == STRATEGY {
        Some(Told::Word("dynamic"))
    } else if key == FACTOR {
        Some(Told::Number(1))
    } else if key == LIFECYCLE {
        Some(Told::Word("per_method"))
    } else {
        None
    }
}

/// The word of an execution mode.
fn mode_word(mode: Mode) -> &'static str
    ensures { result.now ≡ mode_word mode }
{
    match mode {
        Mode::SameThread => "same_thread",
        Mode::Concurrent => "concurrent",
    }
}

/// What is told of a key: its value and where this is from.
pub(crate) fn setting(
    table: &Table,
    key: &'static str,
    is_parallel: bool,
    default_mode: Mode,
) -> Setting<'static>
    ensures { setting_line result ≡ setting_text key.now
        (leaves (table_view table.now)) is_parallel default_mode }
{
    match told_at(table, key) {
        Some(value) => Setting {
            key,
            value: Some(value),
            origin: origin(unused(key, is_parallel, is_fixed(table))),
        },
        None => Setting {
            key,
            value: default_value(key, default_mode),
            origin: Origin::Default,
        },
    }
}

/// Where a value of the file is from, and why it isn't used.
fn origin(unused: Option<&'static str>) -> Origin<'static>
    ensures { origin_text result ≡ file_origin (option_map (λ why. why.now) unused.entry) }
{
    match unused {
        Some(why) => Origin::Unused(why),
        None => Origin::File,
    }
}
