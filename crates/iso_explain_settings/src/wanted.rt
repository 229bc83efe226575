//! What a key takes.
ghost use Rattle.std.specs.Prelude.{◌≡◌, IfOk, map, option_map};
ghost use Rattle.iso_explain_settings.specs.Wanted.{before_key, is_in_table, nearest_of, settings_wanted, takes, wanted_at, words, world_wanted};

use crate::keys::{CLASSES_MODE, ENABLED, FACTOR, LIFECYCLE, MODE, PARALLELISM, STRATEGY};
use iso_hints::nearest::nearest;
use std::alloc::{AllocError, Global};

/// What a file is read as.
#[derive(Clone, Copy)]
pub(crate) enum File {
    Settings,
    World,
}

/// What a key takes.
#[derive(Clone, Copy)]
pub(crate) enum Wanted {
    /// A truth value.
    Flag,
    /// An execution mode.
    Mode,
    Strategy,
    /// A whole number, 1 to 64.
    Count,
    Lifecycle,
    /// A text of a world.
    Text,
    /// A table of texts.
    Table,
    /// There is no such key.
    Nothing,
}

/// The words of truth values.
pub(crate) const FLAGS: &[&str] = &["true", "false"];

/// The words of execution modes.
pub(crate) const MODES: &[&str] = &["same_thread", "concurrent"];

/// The words of strategies.
pub(crate) const STRATEGIES: &[&str] = &["dynamic", "fixed"];

/// The words of lifecycles.
pub(crate) const LIFECYCLES: &[&str] = &["per_method"];

/// The keys at the top of a world.
pub(crate) const TOPS: &[&str] = &["files", "locale", "properties"];

/// No words.
pub(crate) const NOTHING: &[&str] = &[];

/// What a key of a file takes.
pub(crate) fn wanted_at(file: File, key: &str) -> Wanted
    ensures { result ≡ wanted_at file key.now }
{
    match file {
        File::Settings => settings_wanted(key),
        File::World => world_wanted(key),
    }
}

/// What a key of settings takes.
pub(crate) fn settings_wanted(key: &str) -> Wanted
    ensures { result ≡ settings_wanted key.now }
{
    if key == ENABLED {
        Wanted::Flag
    } else if key == MODE || key == CLASSES_MODE {
        Wanted::Mode
    } else if key == STRATEGY {
        Wanted::Strategy
    } else if key == FACTOR || key == PARALLELISM {
        Wanted::Count
    } else if key == LIFECYCLE {
        Wanted::Lifecycle
    } else {
        Wanted::Nothing
    }
}

/// What a key of a world takes.
fn world_wanted(key: &str) -> Wanted
    ensures { result ≡ world_wanted key.now }
{
    if key == "files" || key == "properties" {
        Wanted::Table
    } else if key == "locale" || is_in_table(key) {
        Wanted::Text
    } else {
        Wanted::Nothing
    }
}

/// Whether a key of a world stands in one of its tables.
fn is_in_table(key: &str) -> bool
    ensures { result ≡ is_in_table key.now }
{
    key.as_bytes().starts_with(b"files.") || key.as_bytes().starts_with(b"properties.")
}

/// What stands before a key where it is told what it takes.
pub(crate) fn before_key(wanted: Wanted) -> &'static str
    ensures { result.now ≡ before_key wanted }
{
    match wanted {
        Wanted::Nothing => "there is no key ",
        _ => "",
    }
}

/// What a key takes, in words.
pub(crate) fn takes(wanted: Wanted) -> &'static str
    ensures { result.now ≡ takes wanted }
{
    match wanted {
        Wanted::Flag => " takes true or false",
        Wanted::Mode => " takes \"same_thread\" or \"concurrent\"",
        Wanted::Strategy => " takes \"dynamic\" or \"fixed\"",
        Wanted::Count => " takes a whole number, 1 to 64",
        Wanted::Lifecycle => " takes \"per_method\"",
        Wanted::Text => " takes a text of printable ASCII, at most 4096 bytes",
        Wanted::Table => " takes a table of texts",
        Wanted::Nothing => ": a world has files, locale and properties",
    }
}

/// Of the words that a key takes the one that is nearest to a word, if one is near. Where there is
/// no such key, it is the nearest key.
pub(crate) fn nearest_word(
    alloc: Global,
    wanted: Wanted,
    word: &str,
) -> Result<Option<&'static str>, AllocError>
    ensures { IfOk result (λ found. option_map (λ w. w.now) found
        ≡ nearest_of word.now (words wanted)) }
{
    match wanted {
        Wanted::Flag => nearest_of(alloc, word, FLAGS),
        Wanted::Mode => nearest_of(alloc, word, MODES),
        Wanted::Strategy => nearest_of(alloc, word, STRATEGIES),
        Wanted::Lifecycle => nearest_of(alloc, word, LIFECYCLES),
        Wanted::Nothing => nearest_of(alloc, word, TOPS),
        Wanted::Count | Wanted::Text | Wanted::Table => nearest_of(alloc, word, NOTHING),
    }
}

/// Of these words the one that is nearest to a word, if one is near.
#[tactic(auto, unfolding(crate::specs::Wanted::nearest_of))]
fn nearest_of(
    alloc: Global,
    word: &str,
    words: &[&'static str],
) -> Result<Option<&'static str>, AllocError>
    ensures { IfOk result (λ found. option_map (λ w. w.now) found
        ≡ nearest_of word.now (map (λ w. w.now) words.now)) }
{
    nearest(alloc, word, words)
}
