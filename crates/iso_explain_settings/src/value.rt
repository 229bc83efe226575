//! What is told of a value.
ghost use Rattle.std.specs.Prelude.{◌≡◌, ◌≤◌, false, IfOk, nat_le, option_map, string_bytes, unwrap_or, ◌&&◌};
ghost use Rattle.std.specs.List.{list_all};
ghost use Rattle.toml.specs.Data.{no_members, table};
ghost use Rattle.toml.specs.Text.{IsValueText};
ghost use Rattle.toml.specs.View.{view};
ghost use Rattle.iso_explain_settings.specs.Values.{count_hint, flag_hint, hint, is_long_text, kind_text, left_out_hint, near, subject, text_hint, wrong_hint};
ghost use Rattle.iso_explain_settings.specs.Wanted.{words};
ghost use Rattle.iso_settings.specs.Worlds.{is_printable};

use crate::wanted::{Wanted, nearest_word};
use std::alloc::{AllocError, Global};
use std::fmt::{Display, Formatter};
use toml::Value;

/// What is wrong with a value.
#[derive(Clone, Copy)]
pub(crate) enum Kind {
    Wrong,
    /// It is one of JUnit's that is left out.
    Unsupported,
    OutOfRange,
}

/// A value as TOML has it.
pub(crate) fn written(alloc: Global, value: &Value) -> Result<String, AllocError>
    ensures { IfOk result (λ s. IsValueText false (view value.now) (string_bytes s)) }
{
    let mut f = Formatter::new(String::new(alloc));
    match value.fmt(&mut f) {
        Ok(()) => Ok(f.into_inner()),
        Err(_) => Err(AllocError),
    }
}

/// The kind of a value, in words.
pub(crate) fn kind_text(value: &Value) -> &'static str
    ensures { result.now ≡ kind_text (view value.now) }
{
    match value {
        Value::String(_) => "a text",
        Value::Integer(_) => "a whole number",
        Value::Float(_) => "a float",
        Value::Boolean(_) => "a boolean",
        Value::Datetime(_) => "a date",
        Value::Array(_) => "an array",
        Value::Table(_) => "a table",
    }
}

/// The word that was meant by a value, if one is near. Where there is no such key, it is the key
/// that was meant.
pub(crate) fn meant(
    alloc: Global,
    wanted: Wanted,
    key: &str,
    value: &Value,
) -> Result<Option<&'static str>, AllocError>
    ensures { IfOk result (λ found. option_map (λ w. w.now) found
        ≡ near (subject wanted key.now (view value.now)) (words wanted)) }
{
    match (wanted, value) {
        (Wanted::Nothing, _) => nearest_word(alloc, wanted, key),
        (_, Value::String(text)) => nearest_word(alloc, wanted, text),
        _ => Ok(None),
    }
}

/// The key that was meant, where there is no such key and one is near.
pub(crate) fn meant_key(
    alloc: Global,
    wanted: Wanted,
    key: &str,
) -> Result<Option<&'static str>, AllocError>
    ensures { IfOk result (λ found. option_map (λ w. w.now) found
        ≡ near (subject wanted key.now (table no_members)) (words wanted)) }
{
    match wanted {
        Wanted::Nothing => nearest_word(alloc, wanted, key),
        _ => Ok(None),
    }
}

/// Whether a text is longer than a text of a world may be, or has a key that is.
pub(crate) fn is_long_text(kind: Kind, wanted: Wanted) -> bool
    ensures { result ≡ is_long_text kind wanted }
{
    matches!((kind, wanted), (Kind::OutOfRange, Wanted::Text))
}

/// What mends a value, where nothing near was meant.
pub(crate) fn hint(kind: Kind, wanted: Wanted, key: &str, value: &Value) -> Option<&'static str>
    ensures { option_map (λ h. h.now) result ≡ hint kind wanted key.now (view value.now) }
{
    match kind {
        Kind::Wrong => wrong_hint(wanted, key, value),
        Kind::Unsupported => Some(left_out_hint(wanted)),
        Kind::OutOfRange => None,
    }
}

/// Why a value of JUnit's is left out.
fn left_out_hint(wanted: Wanted) -> &'static str
    ensures { result.now ≡ left_out_hint wanted }
{
    match wanted {
        Wanted::Strategy => "a custom strategy is a Java class, and none is run here",
        _ => "each test has an instance of its own, so there is no other lifecycle",
    }
}

/// What mends a value that is of another kind or text than its key takes.
fn wrong_hint(wanted: Wanted, key: &str, value: &Value) -> Option<&'static str>
    ensures { option_map (λ h. h.now) result ≡ wrong_hint wanted key.now (view value.now) }
{
    match wanted {
        Wanted::Flag => flag_hint(value),
        Wanted::Count => count_hint(value),
        Wanted::Text => text_hint(key, value),
        Wanted::Table => Some("write a header such as [files], and a line for each text below it"),
        Wanted::Mode | Wanted::Strategy | Wanted::Lifecycle | Wanted::Nothing => None,
    }
}

/// What mends a truth value.
fn flag_hint(value: &Value) -> Option<&'static str>
    ensures { option_map (λ h. h.now) result ≡ flag_hint (view value.now) }
{
    match value {
        Value::String(_) => Some("write true or false, without quotes"),
        _ => None,
    }
}

/// What mends a number.
fn count_hint(value: &Value) -> Option<&'static str>
    ensures { option_map (λ h. h.now) result ≡ count_hint (view value.now) }
{
    match value {
        Value::Float(_) => Some("write the number without a point"),
        Value::String(_) => Some(
            "write the number without quotes, or as one to nine digits in them",
        ),
        _ => None,
    }
}

/// What mends a text of a world.
fn text_hint(key: &str, value: &Value) -> Option<&'static str>
    ensures { option_map (λ h. h.now) result ≡ text_hint key.now (view value.now) }
{
    match value {
        Value::String(_) if is_printable(key) => Some("a byte of the text isn't printable ASCII"),
        Value::String(_) => Some("a byte of the key isn't printable ASCII"),
        Value::Array(_) => Some("write a text for each key"),
        _ => Some("write it as a text, in double quotes"),
    }
}

/// Whether a text is printable ASCII.
fn is_printable(text: &str) -> bool
    ensures { result ≡ is_printable text.now }
{
    text.as_bytes()
        .iter()
        .all(|byte| 0x20 <= *byte && *byte <= 0x7E)
}
