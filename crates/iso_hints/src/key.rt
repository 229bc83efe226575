//! Keys of settings: which are unknown, and what was meant.
ghost use Rattle.std.specs.Prelude.{◌≡◌, ◌==◌, IfOk, map, option_map};
ghost use Rattle.std.specs.List.{list_any};
ghost use Rattle.std.specs.Str.{bytes_eq};
ghost use Rattle.iso_hints.specs.Keys.{did_you_mean, is_unknown, meant_key, suggestion, unknown_line};
ghost use Rattle.iso_tap.specs.Printers.{Prints};

use crate::near_key::nearest_known;
use crate::picture::shown;
use iso_tap::printer::Printer;
use iso_tap::sink::{Sink, SinkFailed};
use std::alloc::{AllocError, Global};

/// With this begin all keys of JUnit's.
const JUPITER: &[u8] = b"junit.jupiter.";

/// The keys of settings, in the order in which they are read and told.
pub const KEYS: &[&str] = &[
    "junit.jupiter.execution.parallel.enabled",
    "junit.jupiter.execution.parallel.mode.default",
    "junit.jupiter.execution.parallel.mode.classes.default",
    "junit.jupiter.execution.parallel.config.strategy",
    "junit.jupiter.execution.parallel.config.dynamic.factor",
    "junit.jupiter.execution.parallel.config.fixed.parallelism",
    "junit.jupiter.testinstance.lifecycle.default",
];

/// Whether a joined key of a settings file is one of JUnit's by its beginning, and none of
/// settings.
pub fn is_unknown(key: &str) -> bool
    ensures { result ≡ is_unknown key.now }
{
    key.as_bytes().starts_with(JUPITER) && !is_listed(key, KEYS)
}

/// Whether a key is one of these.
fn is_listed(key: &str, keys: &[&str]) -> bool
    ensures { result ≡ list_any (λ k. bytes_eq k.now key.now) keys.now }
{
    keys.iter().any(|known| *known == key)
}

/// The key of settings that was meant by one: the nearest, if one is near enough, by what both have
/// behind the last dot up to which they are the same.
pub fn nearest_key(alloc: Global, key: &str) -> Result<Option<&'static str>, AllocError>
    ensures { IfOk result (λ found. option_map (λ k. k.now) found ≡ meant_key key.now) }
{
    let near = nearest_known(alloc, key, KEYS)?;
    Ok(near.map(|near| near.word))
}

/// Writes that a key is unknown, and which was meant.
pub fn write_unknown<W: Sink>(
    printer: &mut Printer<'_, W>,
    key: &str,
    meant: Option<&str>,
) -> Result<(), SinkFailed>
    ensures { Prints printer.old printer.new
        (unknown_line key.now (option_map (λ k. k.now) meant.entry)) result }
{
    printer.bytes(b"unknown ")?;
    shown(printer, key.as_bytes())?;
    suggestion(printer, meant)?;
    printer.bytes(b"\n")
}

/// Writes what was meant, where something is near.
fn suggestion<W: Sink>(printer: &mut Printer<'_, W>, meant: Option<&str>) -> Result<(), SinkFailed>
    ensures { Prints printer.old printer.new
        (suggestion (option_map (λ k. k.now) meant.entry)) result }
{
    match meant {
        Some(key) => did_you_mean(printer, key),
        None => Ok(()),
    }
}

/// Writes a key as what was meant.
fn did_you_mean<W: Sink>(printer: &mut Printer<'_, W>, key: &str) -> Result<(), SinkFailed>
    ensures { Prints printer.old printer.new (did_you_mean key.now) result }
{
    printer.bytes(b": did you mean ")?;
    printer.bytes(key.as_bytes())?;
    printer.bytes(b"?")
}
