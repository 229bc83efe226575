//! Words of a command as a shell reads them.
ghost use Rattle.std.specs.Prelude.{◌≡◌, flat_map};
ghost use Rattle.iso_summary.specs.Words.{begins_with_dash, file_word, folder, in_quotes, is_plain, is_plain_word, shell_word};
ghost use Rattle.iso_tap.specs.Printers.{Prints};

use iso_tap::printer::Printer;
use iso_tap::sink::{Sink, SinkFailed};

/// Beside letters and digits, the bytes that mean nothing to a shell.
const PLAIN: &[u8] = b"_./:=@%+,-";

/// Writes a file's name as a word of a command, which takes it for no option.
pub fn file<W: Sink>(printer: &mut Printer<'_, W>, file: &str) -> Result<(), SinkFailed>
    ensures { Prints printer.old printer.new (file_word file.now) result }
{
    printer.bytes(folder(file.as_bytes()))?;
    word(printer, file.as_bytes())
}

/// What is written before a file's name in a command, so that it is taken for no option.
pub fn folder(file: &[u8]) -> &'static [u8]
    ensures { result.now ≡ folder file.now }
{
    if matches!(file, [b'-', ..]) {
        b"./"
    } else {
        b""
    }
}

/// Writes a word, in quotes where it needs them.
pub fn word<W: Sink>(printer: &mut Printer<'_, W>, word: &[u8]) -> Result<(), SinkFailed>
    ensures { Prints printer.old printer.new (shell_word word.now) result }
{
    if is_plain_word(word) {
        return printer.bytes(word);
    }
    printer.bytes(b"'")?;
    within_quotes(printer, word)?;
    printer.bytes(b"'")
}

/// Writes a word as it stands between single quotes.
fn within_quotes<W: Sink>(printer: &mut Printer<'_, W>, word: &[u8]) -> Result<(), SinkFailed>
    ensures { Prints printer.old printer.new (flat_map in_quotes word.now) result }
{
    for byte in word {
        in_quotes(printer, *byte)?;
    }
    Ok(())
}

/// Writes a byte as it stands between single quotes: a quote ends them, stands behind a backslash,
/// and begins them again.
fn in_quotes<W: Sink>(printer: &mut Printer<'_, W>, byte: u8) -> Result<(), SinkFailed>
    ensures { Prints printer.old printer.new (in_quotes byte) result }
{
    match byte {
        b'\'' => printer.bytes(b"'\\''"),
        _ => printer.bytes(&[byte]),
    }
}

/// Whether a word of a command needs no quotes (POSIX.1-2017, Shell Command Language).
pub fn is_plain_word(word: &[u8]) -> bool
    ensures { result ≡ is_plain_word word.now }
{
    for byte in word {
        if !is_plain(*byte) {
            return false;
        }
    }
    !word.is_empty()
}

/// Whether a byte means nothing to a shell.
fn is_plain(byte: u8) -> bool
    ensures { result ≡ is_plain byte }
{
    byte.is_ascii_alphanumeric() || PLAIN.contains(&byte)
}
