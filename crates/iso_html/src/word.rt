//! Words of a command as a shell reads them, as they stand on the page.
ghost use Rattle.std.specs.Prelude.{◌≡◌, flat_map};
ghost use Rattle.iso_junit.specs.Escapes.{escaped};
ghost use Rattle.iso_summary.specs.Words.{file_word, in_quotes, shell_word};
ghost use Rattle.iso_tap.specs.Printers.{Prints};

use iso_junit::escape::escaped;
use iso_summary::word::{folder, is_plain_word};
use iso_tap::printer::Printer;
use iso_tap::sink::{Sink, SinkFailed};

/// Writes a file's name as a word of a command, which takes it for no option.
pub(crate) fn file<W: Sink>(printer: &mut Printer<'_, W>, file: &str) -> Result<(), SinkFailed>
    ensures { Prints printer.old printer.new (escaped (file_word file.now)) result }
{
    escaped(printer, folder(file.as_bytes()))?;
    word(printer, file.as_bytes())
}

/// Writes a word, in quotes where it needs them.
fn word<W: Sink>(printer: &mut Printer<'_, W>, word: &[u8]) -> Result<(), SinkFailed>
    ensures { Prints printer.old printer.new (escaped (shell_word word.now)) result }
{
    if is_plain_word(word) {
        return escaped(printer, word);
    }
    printer.bytes(b"'")?;
    within_quotes(printer, word)?;
    printer.bytes(b"'")
}

/// Writes a word as it stands between single quotes.
fn within_quotes<W: Sink>(printer: &mut Printer<'_, W>, word: &[u8]) -> Result<(), SinkFailed>
    ensures { Prints printer.old printer.new (escaped (flat_map in_quotes word.now)) result }
{
    for byte in word {
        in_quotes(printer, *byte)?;
    }
    Ok(())
}

/// Writes a byte as it stands between single quotes: a quote ends them, stands behind a backslash,
/// and begins them again.
fn in_quotes<W: Sink>(printer: &mut Printer<'_, W>, byte: u8) -> Result<(), SinkFailed>
    ensures { Prints printer.old printer.new (escaped (in_quotes byte)) result }
{
    match byte {
        b'\'' => printer.bytes(b"'\\''"),
        _ => escaped(printer, &[byte]),
    }
}
