//! What is told of what stands at a key.
ghost use Rattle.std.specs.Prelude.{◌≡◌, ◌∷◌, [], List, OnOk, length, unwrap_or};
ghost use Rattle.toml.specs.Data.{Data, as_str};
ghost use Rattle.toml.specs.View.{view};
ghost use Rattle.iso_explain_settings.specs.Told.{Adds, IsFoundText, IsTold, advice, advice_text, found_line, long_advice, long_line, table_text, twice_text};
ghost use Rattle.iso_settings.specs.Leaves.{IsFound};
ghost use Rattle.iso_tap.specs.Sinks.{Wrote};

use crate::note::mending;
use crate::part::{Part, tell};
use crate::value::{Kind, hint, is_long_text, kind_text, meant, meant_key, written};
use crate::wanted::{Wanted, before_key, takes};
use iso_settings::find::Found;
use iso_tap::memory::MemorySink;
use std::alloc::{AllocError, Global};
use toml::Value;

/// How many bytes of a value are shown at most.
const VALUE_BYTES: usize = 60;

/// How many bytes of a key are shown at most.
const KEY_BYTES: usize = 160;

/// How one key may be spelled.
const SPELLINGS: &str =
    " = a table, dots and quotes may spell the same key: [a] with b = 1, a.b = 1, and \"a.b\" = 1\n";

/// A key, what it takes, and what is wrong there.
#[derive(Clone, Copy)]
pub(crate) struct Mistake<'a> {
    pub kind: Kind,
    pub wanted: Wanted,
    pub key: &'a str,
}

/// Adds what mends a mistake where this was found.
pub(crate) fn tell_found(
    alloc: Global,
    mistake: &Mistake<'_>,
    found: Found<'_>,
    text: &mut MemorySink,
) -> Result<(), AllocError>
    ensures { (values : List Data) → IsFound found.entry values
        → OnOk result (Adds text.old text.new
        (IsTold mistake.now.kind mistake.now.wanted mistake.now.key.now values)) }
{
    match found {
        Found::Nothing => tell_table(alloc, mistake, text),
        Found::One(value) => tell_value(alloc, mistake, value, text),
        Found::Several => tell_twice(mistake, text),
    }
}

/// Adds a value, and what mends it.
fn tell_value(
    alloc: Global,
    mistake: &Mistake<'_>,
    value: &Value,
    text: &mut MemorySink,
) -> Result<(), AllocError>
    ensures { OnOk result (Adds text.old text.new
        (IsTold mistake.now.kind mistake.now.wanted mistake.now.key.now (view value.now ∷ []))) }
{
    let is_long = is_long_text(mistake.kind, mistake.wanted);
    tell_written(alloc, is_long, value, text)?;
    tell_advice(alloc, is_long, mistake, value, text)
}

/// Adds a value as TOML writes it, and its kind.
fn tell_written(
    alloc: Global,
    is_long: bool,
    value: &Value,
    text: &mut MemorySink,
) -> Result<(), AllocError>
    ensures { OnOk result (Adds text.old text.new (IsFoundText is_long (view value.now))) }
{
    let written = written(alloc, value)?;
    if is_long {
        tell_long(value, written.as_str(), text)
    } else {
        tell_short(value, written.as_str(), text)
    }
}

/// Adds a value and its kind.
fn tell_short(value: &Value, written: &str, text: &mut MemorySink) -> Result<(), AllocError>
    ensures { OnOk result (Wrote text.old text.new (found_line (view value.now) written.now)) }
{
    tell(
        text,
        &[
            Part::Plain(" = found: "),
            Part::Shown(written, VALUE_BYTES),
            Part::Plain(", "),
            Part::Plain(kind_text(value)),
            Part::Plain("\n"),
        ],
    )
}

/// Adds a text and how long it is.
fn tell_long(value: &Value, written: &str, text: &mut MemorySink) -> Result<(), AllocError>
    ensures { OnOk result (Wrote text.old text.new (long_line (view value.now) written.now)) }
{
    tell(
        text,
        &[
            Part::Plain(" = found: "),
            Part::Shown(written, VALUE_BYTES),
            Part::Plain(", a text of "),
            Part::Number(text_bytes(value)),
            Part::Plain(" bytes\n"),
        ],
    )
}

/// How many bytes a text has; of other values none are counted.
fn text_bytes(value: &Value) -> u64
    ensures { result ≡ length (unwrap_or (as_str (view value.now)) []) }
{
    match value {
        Value::String(text) => text.len() as u64,
        _ => 0,
    }
}

/// Adds what the key takes, and what mends the value.
fn tell_advice(
    alloc: Global,
    is_long: bool,
    mistake: &Mistake<'_>,
    value: &Value,
    text: &mut MemorySink,
) -> Result<(), AllocError>
    ensures { OnOk result (Wrote text.old text.new
        (advice_text is_long mistake.now.kind mistake.now.wanted mistake.now.key.now
        (view value.now))) }
{
    if is_long {
        tell_long_advice(mistake, text)
    } else {
        tell_short_advice(alloc, mistake, value, text)
    }
}

/// Adds what the key takes, and what mends a value.
fn tell_short_advice(
    alloc: Global,
    mistake: &Mistake<'_>,
    value: &Value,
    text: &mut MemorySink,
) -> Result<(), AllocError>
    ensures { OnOk result (Wrote text.old text.new
        (advice mistake.now.kind mistake.now.wanted mistake.now.key.now (view value.now))) }
{
    let Mistake { kind, wanted, key } = *mistake;
    let meant = meant(alloc, wanted, key, value)?;
    let mending = mending(meant, hint(kind, wanted, key, value));
    tell(
        text,
        &[
            Part::Plain(" = "),
            Part::Plain(before_key(wanted)),
            Part::Shown(key, KEY_BYTES),
            Part::Plain(takes(wanted)),
            Part::Plain("\n"),
            Part::Plain(mending.lead),
            Part::Plain(mending.text),
            Part::Plain(mending.end),
        ],
    )
}

/// Adds what the key takes, and how long it is itself.
fn tell_long_advice(mistake: &Mistake<'_>, text: &mut MemorySink) -> Result<(), AllocError>
    ensures { OnOk result (Wrote text.old text.new
        (long_advice mistake.now.wanted mistake.now.key.now)) }
{
    let Mistake { wanted, key, .. } = *mistake;
    tell(
        text,
        &[
            Part::Plain(" = "),
            Part::Plain(before_key(wanted)),
            Part::Shown(key, KEY_BYTES),
            Part::Plain(takes(wanted)),
            Part::Plain("\n"),
            Part::Plain(" = the key has "),
            Part::Number(key.len() as u64),
            Part::Plain(" bytes: behind files. or properties. at most 4096\n"),
        ],
    )
}

/// Adds that a table stands where the key takes no table.
fn tell_table(alloc: Global, mistake: &Mistake<'_>, text: &mut MemorySink) -> Result<(), AllocError>
    ensures { OnOk result (Wrote text.old text.new
        (table_text mistake.now.wanted mistake.now.key.now)) }
{
    let Mistake { wanted, key, .. } = *mistake;
    let meant = meant_key(alloc, wanted, key)?;
    let mending = mending(meant, None);
    tell(
        text,
        &[
            Part::Plain(" = found: a table\n"),
            Part::Plain(" = "),
            Part::Plain(before_key(wanted)),
            Part::Shown(key, KEY_BYTES),
            Part::Plain(takes(wanted)),
            Part::Plain("\n"),
            Part::Plain(mending.lead),
            Part::Plain(mending.text),
            Part::Plain(mending.end),
        ],
    )
}

/// Adds that a key stands twice.
fn tell_twice(mistake: &Mistake<'_>, text: &mut MemorySink) -> Result<(), AllocError>
    ensures { OnOk result (Wrote text.old text.new (twice_text mistake.now.key.now)) }
{
    tell(
        text,
        &[
            Part::Plain(" = "),
            Part::Shown(mistake.key, KEY_BYTES),
            Part::Plain(" stands twice: keep one\n"),
            Part::Plain(SPELLINGS),
        ],
    )
}
