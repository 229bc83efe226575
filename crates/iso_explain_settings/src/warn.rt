//! Warnings of settings: keys that are unknown, and values that aren't used.
ghost use Rattle.std.specs.Prelude.{◌≡◌, OnOk, map, option_map, string_bytes};
ghost use Rattle.iso_explain_settings.specs.Told.{note_text};
ghost use Rattle.iso_explain_settings.specs.Unknown.{with_one};
ghost use Rattle.iso_explain_settings.specs.Warned.{line_end, unknown_warning, with_unknown, with_unused, with_unused_keys, warned};
ghost use Rattle.iso_hints.specs.Keys.{known_keys};
ghost use Rattle.iso_settings.specs.Leaves.{leaves};
ghost use Rattle.toml.specs.View.{table_view};

use crate::chosen::{is_fixed, told_at, unused};
use crate::note::Note;
use crate::part::Part;
use crate::unknown::unknown_keys;
use crate::warnings::Warnings;
use iso_hints::key::{KEYS, nearest_key};
use std::alloc::{AllocError, Global};
use toml::Table;

/// How many bytes of a key are shown at most.
const KEY_BYTES: usize = 160;

/// Adds the warnings of a table of settings.
pub(crate) fn warn_table(
    alloc: Global,
    name: &str,
    table: &Table,
    is_parallel: bool,
    warnings: &mut Warnings,
) -> Result<(), AllocError>
    ensures { OnOk result (warnings.new ≡ warned warnings.old name.now
        (leaves (table_view table.now)) is_parallel) }
{
    let unknown = unknown_keys(alloc, table)?;
    warn_unused(name, table, KEYS, is_parallel, warnings)?;
    warn_unknown(alloc, name, unknown.keys.as_slice(), warnings)?;
    warnings.add_more(unknown.more);
    Ok(())
}

/// Adds a warning for each of these keys whose value isn't used.
fn warn_unused(
    name: &str,
    table: &Table,
    keys: &[&'static str],
    is_parallel: bool,
    warnings: &mut Warnings,
) -> Result<(), AllocError>
    ensures { OnOk result (warnings.new ≡ with_unused_keys warnings.old name.now
        (leaves (table_view table.now)) is_parallel (map (λ k. k.now) keys.now)) }
{
    for key in keys {
        warn_key(name, table, key, is_parallel, warnings)?;
    }
    Ok(())
}

/// Adds a warning where a key has a value that isn't used.
fn warn_key<'a>(
    name: &'a str,
    table: &Table,
    key: &'a str,
    is_parallel: bool,
    warnings: &mut Warnings,
) -> Result<(), AllocError>
    ensures { OnOk result (warnings.new ≡ with_unused warnings.old name.now
        (leaves (table_view table.now)) is_parallel key.now) }
{
    if told_at(table, key).is_none() {
        return Ok(());
    }
    match unused(key, is_parallel, is_fixed(table)) {
        Some(why) => warnings.add_line(&[
            Part::Plain("jtap: warning: "),
            Part::Name(name),
            Part::Plain(": "),
            Part::Plain(key),
            Part::Plain(" isn't used: "),
            Part::Plain(why),
            Part::Plain("\n"),
        ]),
        None => Ok(()),
    }
}

/// Adds a warning for each of these keys, which are unknown.
fn warn_unknown(
    alloc: Global,
    name: &str,
    keys: &[String],
    warnings: &mut Warnings,
) -> Result<(), AllocError>
    ensures { OnOk result (warnings.new ≡ with_unknown warnings.old name.now
        (map string_bytes keys.now)) }
{
    for key in keys {
        warn_one(alloc, name, key.as_str(), warnings)?;
    }
    Ok(())
}

/// Adds a warning for a key that is unknown.
fn warn_one<'a>(
    alloc: Global,
    name: &'a str,
    key: &'a str,
    warnings: &mut Warnings,
) -> Result<(), AllocError>
    ensures { OnOk result (warnings.new ≡ with_one warnings.old
        (unknown_warning name.now key.now)) }
{
    let meant = nearest_key(alloc, key)?;
    let note = line_end(meant);
    warnings.add_line(&[
        Part::Plain("jtap: warning: "),
        Part::Name(name),
        Part::Plain(": unknown "),
        Part::Shown(key, KEY_BYTES),
        Part::Plain(note.lead),
        Part::Plain(note.text),
        Part::Plain(note.end),
    ])
}

/// The key that was meant, if one was, and the line's end.
fn line_end(meant: Option<&'static str>) -> Note<'static>
    ensures { note_text result ≡ line_end (option_map (λ k. k.now) meant.entry) }
{
    match meant {
        Some(key) => Note {
            lead: ": did you mean ",
            text: key,
            end: "?\n",
        },
        None => Note {
            lead: "",
            text: "",
            end: "\n",
        },
    }
}
