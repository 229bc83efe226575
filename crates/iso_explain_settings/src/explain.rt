//! What mends settings or a world.
ghost use Rattle.std.specs.Prelude.{◌≡◌, IfOk, None, OnOk, Some, option_map};
ghost use Rattle.std.specs.Str.{IsUtf8};
ghost use Rattle.iso_explain_settings.specs.Explanations.{IsExplained, missing_text};
ghost use Rattle.iso_explain_settings.specs.Refusals.{IsRefusal};
ghost use Rattle.iso_explain_settings.specs.Told.{Adds, IsTold};
ghost use Rattle.iso_explain_settings.specs.Wanted.{wanted_at};
ghost use Rattle.iso_settings.specs.Leaves.{leaves, values_at};
ghost use Rattle.iso_settings.specs.declared.fault.SettingsFault.TheVariants.{NotToml};
ghost use Rattle.iso_tap.specs.Sinks.{Wrote};
ghost use Rattle.toml.specs.Data.{Members};
ghost use Rattle.toml.specs.Parse.{parse_document};
ghost use Rattle.toml.specs.View.{table_view};

use crate::part::{Part, tell};
use crate::refusal::explain_refusal;
use crate::told::{Mistake, tell_found};
use crate::value::Kind;
use crate::wanted::{File, wanted_at};
use iso_settings::fault::SettingsFault;
use iso_settings::find::find;
use iso_tap::memory::MemorySink;
use std::alloc::{AllocError, Global};
use toml::Table;

/// Adds what mends a fault of a file's bytes.
pub(crate) fn explain(
    alloc: Global,
    file: File,
    name: &str,
    bytes: &[u8],
    fault: &SettingsFault,
    text: &mut MemorySink,
) -> Result<(), AllocError>
    ensures found { (document : Members) → IsUtf8 bytes.now → parse_document bytes.now
        ≡ Some document
        → OnOk result (IsExplained file fault.now document text.old text.new) }
    ensures refused { fault.now ≡ NotToml → (IsUtf8 bytes.now → parse_document bytes.now ≡ None)
        → OnOk result (Adds text.old text.new (IsRefusal name.now bytes.now)) }
{
    match fault {
        SettingsFault::NotToml => explain_refusal(alloc, name, bytes, text),
        SettingsFault::WrongValue(key) => explain_value(
            alloc,
            &mistake(file, Kind::Wrong, key.as_str()),
            bytes,
            text,
        ),
        SettingsFault::Unsupported(key) => explain_value(
            alloc,
            &mistake(file, Kind::Unsupported, key.as_str()),
            bytes,
            text,
        ),
        SettingsFault::MissingParallelism => tell_missing(text),
        SettingsFault::OutOfRange(key) => explain_value(
            alloc,
            &mistake(file, Kind::OutOfRange, key.as_str()),
            bytes,
            text,
        ),
    }
}

/// A mistake at a key of a file.
fn mistake<'a>(file: File, kind: Kind, key: &'a str) -> Mistake<'a>
    ensures kind { result.kind ≡ kind }
    ensures wanted { result.wanted ≡ wanted_at file key.now }
    ensures key { result.key.now ≡ key.now }
{
    Mistake {
        kind,
        wanted: wanted_at(file, key),
        key,
    }
}

/// Adds what mends a mistake in a document, and nothing where the bytes are none.
fn explain_value(
    alloc: Global,
    mistake: &Mistake<'_>,
    bytes: &[u8],
    text: &mut MemorySink,
) -> Result<(), AllocError>
    ensures { (document : Members) → IsUtf8 bytes.now → parse_document bytes.now ≡ Some document
        → OnOk result (Adds text.old text.new
        (IsTold mistake.now.kind mistake.now.wanted mistake.now.key.now
        (values_at mistake.now.key.now (leaves document)))) }
{
    match read_table(alloc, bytes)? {
        Some(table) => tell_found(alloc, mistake, find(&table, mistake.key), text),
        None => Ok(()),
    }
}

/// The table that bytes are, if they are one.
pub(crate) fn read_table(alloc: Global, bytes: &[u8]) -> Result<Option<Table>, AllocError>
    ensures { (document : Members) → IsUtf8 bytes.now → parse_document bytes.now ≡ Some document
        → IfOk result (λ table. option_map table_view table ≡ Some document) }
{
    match toml::table_from_slice(alloc, bytes) {
        Ok(table) => Ok(Some(table)),
        Err(error) if error.is_memory() => Err(AllocError),
        Err(_) => Ok(None),
    }
}

/// Adds how the number of workers is given where the fixed strategy wants it.
fn tell_missing(text: &mut MemorySink) -> Result<(), AllocError>
    ensures { OnOk result (Wrote text.old text.new missing_text) }
{
    tell(
        text,
        &[
            Part::Plain(
                " = the fixed strategy takes a number of workers; write at the top of the file\n",
            ),
            Part::Plain(" = \"junit.jupiter.execution.parallel.config.fixed.parallelism\" = 4\n"),
            Part::Plain(" = or leave the strategy out: it is then as many as --processors says\n"),
        ],
    )
}
