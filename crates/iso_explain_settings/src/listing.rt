//! What settings come to.
ghost use Rattle.std.specs.Prelude.{◌≡◌, ◌++◌, IfOk, OnOk, Some, flat_map, map, string_bytes};
ghost use Rattle.std.specs.Str.{IsUtf8};
ghost use Rattle.iso_explain_settings.specs.Chosen.{setting_text};
ghost use Rattle.iso_explain_settings.specs.Listing.{dynamic_text, fixed_text, limit_text, listing_text, meant_line, table_listing, why_text, why_text_in, workers_text, workers_text_in};
ghost use Rattle.iso_hints.specs.Settings.{setting_line};
ghost use Rattle.iso_hints.specs.SettingsTexts.{more_line, unknown_key_line};
ghost use Rattle.iso_explain_settings.specs.Unknown.{kept_of};
ghost use Rattle.iso_settings.specs.Leaves.{leaves};
ghost use Rattle.iso_tap.specs.Sinks.{Wrote};
ghost use Rattle.toml.specs.Data.{Members};
ghost use Rattle.toml.specs.Parse.{parse_document};
ghost use Rattle.toml.specs.View.{table_view};

use crate::chosen::{count_at, is_fixed, setting};
use crate::explain::read_table;
use crate::keys::FACTOR;
use crate::part::{Part, tell};
use crate::unknown::{Unknown, unknown_keys};
use iso_hints::key::{KEYS, nearest_key};
use iso_hints::setting::{Setting, write_workers};
use iso_hints::settings::{UnknownKey, write_settings};
use iso_settings::settings::Settings;
use iso_tap::memory::MemorySink;
use iso_tap::printer::{Piece, Printer};
use iso_tap::sink::SinkFailed;
use std::alloc::{AllocError, Global};
use toml::Table;

/// Adds what settings come to that were read from these bytes, for `processors` processors: each
/// key with its value and where this is from, keys that are unknown, and how many workers there
/// are and why. Of unknown keys ten are told, and how many there are more. After running out of
/// memory the text is of no use.
pub fn list_settings(
    alloc: Global,
    bytes: &[u8],
    settings: &Settings,
    processors: u32,
    text: &mut MemorySink,
) -> Result<(), AllocError>
    ensures { (document : Members) → IsUtf8 bytes.now → parse_document bytes.now ≡ Some document
        → OnOk result (Wrote text.old text.new
        (listing_text (leaves document) settings.now processors)) }
{
    match read_table(alloc, bytes)? {
        Some(table) => list_table(alloc, &table, settings, processors, text),
        None => Ok(()),
    }
}

/// Adds how many workers settings come to that were read from these bytes, for `processors`
/// processors, and why.
pub fn tell_workers(
    alloc: Global,
    bytes: &[u8],
    settings: &Settings,
    processors: u32,
    text: &mut MemorySink,
) -> Result<(), AllocError>
    ensures { (document : Members) → IsUtf8 bytes.now → parse_document bytes.now ≡ Some document
        → OnOk result (Wrote text.old text.new
        (workers_text_in (leaves document) settings.now processors)) }
{
    match read_table(alloc, bytes)? {
        Some(table) => {
            let why = why_of(alloc, &table, settings, processors)?;
            write_line(settings.worker_count, why.bytes(), text)
        }
        None => Ok(()),
    }
}

/// Adds what a table of settings comes to.
fn list_table(
    alloc: Global,
    table: &Table,
    settings: &Settings,
    processors: u32,
    text: &mut MemorySink,
) -> Result<(), AllocError>
    ensures { OnOk result (Wrote text.old text.new
        (listing_text (leaves (table_view table.now)) settings.now processors)) }
{
    let unknown = unknown_keys(alloc, table)?;
    list_keys(alloc, table, &unknown, settings, processors, text)
}

/// Adds each key, those that are unknown and how many there are more, and the workers.
fn list_keys(
    alloc: Global,
    table: &Table,
    unknown: &Unknown,
    settings: &Settings,
    processors: u32,
    text: &mut MemorySink,
) -> Result<(), AllocError>
    ensures { OnOk result (Wrote text.old text.new
        (table_listing (leaves (table_view table.now))
        (kept_of unknown.now) settings.now processors)) }
{
    let all = all_settings(alloc, table, KEYS, settings)?;
    let keys = with_meant(alloc, unknown.keys.as_slice())?;
    let why = why_of(alloc, table, settings, processors)?;
    write_all(
        all.as_slice(),
        keys.as_slice(),
        unknown.more,
        settings.worker_count,
        why.bytes(),
        text,
    )
}

/// Adds settings, keys that are unknown and how many there are more, and the workers.
fn write_all<'a>(
    all: &[Setting<'a>],
    unknown: &[UnknownKey<'a>],
    more: u64,
    workers: u32,
    why: &'a [u8],
    text: &mut MemorySink,
) -> Result<(), AllocError>
    ensures { OnOk result (Wrote text.old text.new
        (flat_map setting_line all.now ++ flat_map unknown_key_line unknown.now ++ more_line more
        ++ workers_text workers why.now)) }
{
    let mut printer = Printer::new(text);
    match write_settings(
        &mut printer,
        all,
        unknown,
        more,
        workers,
        &[Piece::Plain(why)],
    ) {
        Ok(()) => Ok(()),
        Err(SinkFailed) => Err(AllocError),
    }
}

/// Adds the workers.
fn write_line(workers: u32, why: &[u8], text: &mut MemorySink) -> Result<(), AllocError>
    ensures { OnOk result (Wrote text.old text.new (workers_text workers why.now)) }
{
    let mut printer = Printer::new(text);
    match write_workers(&mut printer, workers, &[Piece::Plain(why)]) {
        Ok(()) => Ok(()),
        Err(SinkFailed) => Err(AllocError),
    }
}

/// Each of these keys with its value.
fn all_settings(
    alloc: Global,
    table: &Table,
    keys: &[&'static str],
    settings: &Settings,
) -> Result<Vec<Setting<'static>>, AllocError>
    ensures { IfOk result (λ all. flat_map setting_line all.items
        ≡ flat_map (λ key. setting_text key (leaves (table_view table.now)) settings.now.parallel
        settings.now.default_mode) (map (λ k. k.now) keys.now)) }
{
    let mut all = Vec::new(alloc);
    for key in keys {
        all.push(setting(table, key, settings.parallel, settings.default_mode))?;
    }
    Ok(all)
}

/// Keys that are unknown, each with the one that was meant.
fn with_meant<'a>(alloc: Global, keys: &'a [String]) -> Result<Vec<UnknownKey<'a>>, AllocError>
    ensures { IfOk result (λ unknown. flat_map unknown_key_line unknown.items
        ≡ flat_map meant_line (map string_bytes keys.now)) }
{
    let mut unknown = Vec::new(alloc);
    for key in keys {
        unknown.push(with_nearest(alloc, key.as_str())?)?;
    }
    Ok(unknown)
}

/// A key that is unknown, with the one that was meant.
fn with_nearest<'a>(alloc: Global, key: &'a str) -> Result<UnknownKey<'a>, AllocError>
    ensures { IfOk result (λ unknown. unknown_key_line unknown ≡ meant_line key.now) }
{
    Ok(UnknownKey {
        key,
        meant: nearest_key(alloc, key)?,
    })
}

/// Why there are as many workers as there are.
fn why_of(
    alloc: Global,
    table: &Table,
    settings: &Settings,
    processors: u32,
) -> Result<MemorySink, AllocError>
    ensures { IfOk result (λ why. why.bytes
        ≡ Some (why_text_in (leaves (table_view table.now)) settings.now processors)) }
{
    let mut why = MemorySink::new(alloc);
    let factor = count_at(table, FACTOR).unwrap_or(1);
    tell_why(
        settings.parallel,
        is_fixed(table),
        settings.worker_count,
        processors,
        factor,
        &mut why,
    )?;
    Ok(why)
}

/// Adds why there are `workers` workers.
fn tell_why(
    is_parallel: bool,
    is_fixed: bool,
    workers: u32,
    processors: u32,
    factor: u32,
    text: &mut MemorySink,
) -> Result<(), AllocError>
    ensures { OnOk result (Wrote text.old text.new
        (why_text is_parallel is_fixed workers processors factor)) }
{
    match (is_parallel, is_fixed) {
        (false, _) => tell(text, &[Part::Plain("parallel execution is off")]),
        (true, true) => tell_fixed(workers, text),
        (true, false) => tell_dynamic(processors, factor, text),
    }
}

/// Adds why there are `workers` workers by the fixed strategy.
fn tell_fixed(workers: u32, text: &mut MemorySink) -> Result<(), AllocError>
    ensures { OnOk result (Wrote text.old text.new (fixed_text workers)) }
{
    tell(
        text,
        &[
            Part::Plain("strategy is fixed, fixed.parallelism is "),
            Part::Number(u64::from(workers)),
        ],
    )
}

/// Adds how the dynamic strategy comes to its number of workers.
fn tell_dynamic(processors: u32, factor: u32, text: &mut MemorySink) -> Result<(), AllocError>
    ensures { OnOk result (Wrote text.old text.new (dynamic_text processors factor)) }
{
    tell(
        text,
        &[
            Part::Plain("strategy is dynamic, --processors is "),
            Part::Number(u64::from(processors)),
            Part::Plain(", factor is "),
            Part::Number(u64::from(factor)),
            Part::Plain(limit_text(processors.saturating_mul(factor))),
        ],
    )
}

/// What stands behind a number of workers that is above the limit.
fn limit_text(workers: u32) -> &'static str
    ensures { result.now ≡ limit_text workers }
{
    if workers > 64 { ", at most 64" } else { "" }
}
