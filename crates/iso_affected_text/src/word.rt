//! The words that lines are made of, and how they are written.
ghost use Rattle.std.specs.Prelude.{◌≡◌, ◌++◌, cond, map};
ghost use Rattle.std.specs.Option.{option_copied};
ghost use Rattle.iso_affected_text.specs.Words.{joined, optional, other_file, source_text, word_text};
ghost use Rattle.iso_summary.specs.ShownLines.{cut_end, shown_byte, shown_source};
ghost use Rattle.iso_tap.specs.Printers.{Prints};

use iso_summary::name::name;
use iso_tap::printer::Printer;
use iso_tap::sink::{Sink, SinkFailed};

/// How many bytes of a line are shown at most.
const SHOWN: usize = 160;

/// A word of a line.
#[derive(Clone, Copy)]
pub(crate) enum Word<'a> {
    Plain(&'a str),
    /// A number in decimal.
    Number(u64),
    /// A file's name as it is shown.
    Name(&'a str),
    /// A text behind another one, where there is one.
    Optional(&'a str, Option<&'a str>),
    /// A file's name and a colon, where it is another file.
    Other(bool, &'a str),
    /// A line of a script, without its indent.
    Source(&'a [u8]),
}

/// Writes words, one after another.
pub(crate) fn words<W: Sink>(
    printer: &mut Printer<'_, W>,
    words: &[Word<'_>],
) -> Result<(), SinkFailed>
    ensures { Prints printer.old printer.new (joined (map word_text words.now)) result }
{
    for word in words {
        write_word(printer, word)?;
    }
    Ok(())
}

/// Writes a word.
fn write_word<W: Sink>(printer: &mut Printer<'_, W>, word: &Word<'_>) -> Result<(), SinkFailed>
    ensures { Prints printer.old printer.new (word_text word.now) result }
{
    match *word {
        Word::Plain(text) => printer.bytes(text.as_bytes()),
        Word::Number(number) => printer.number(number),
        Word::Name(file) => name(printer, file),
        Word::Optional(before, text) => optional(printer, before, text),
        Word::Other(is_other, file) => other_file(printer, is_other, file),
        Word::Source(line) => source(printer, line),
    }
}

/// Writes a text behind another one, and nothing where there is none.
fn optional<W: Sink>(
    printer: &mut Printer<'_, W>,
    before: &str,
    text: Option<&str>,
) -> Result<(), SinkFailed>
    ensures { Prints printer.old printer.new
        (optional before.now (option_copied text.entry)) result }
{
    match text {
        Some(text) => {
            printer.bytes(before.as_bytes())?;
            printer.bytes(text.as_bytes())
        }
        None => Ok(()),
    }
}

/// Writes the name of another file, and nothing of the same.
fn other_file<W: Sink>(
    printer: &mut Printer<'_, W>,
    is_other: bool,
    file: &str,
) -> Result<(), SinkFailed>
    ensures { Prints printer.old printer.new (other_file is_other file.now) result }
{
    if !is_other {
        return Ok(());
    }
    name(printer, file)?;
    printer.bytes(b":")
}

/// Writes a line of a script without its indent: its first 160 bytes, each tab as a space and each
/// other byte that isn't printable ASCII as `?`.
fn source<W: Sink>(printer: &mut Printer<'_, W>, line: &[u8]) -> Result<(), SinkFailed>
    ensures { Prints printer.old printer.new (source_text line.now) result }
{
    cut(printer, line.trim_ascii_start())
}

/// Writes the first 160 bytes of a line as they are shown, and whether there are more.
fn cut<W: Sink>(printer: &mut Printer<'_, W>, line: &[u8]) -> Result<(), SinkFailed>
    ensures { Prints printer.old printer.new (shown_source line.now) result }
{
    shown(printer, &line[..line.len().min(SHOWN)])?;
    printer.bytes(cut_end(line))
}

/// Writes bytes as they are shown.
fn shown<W: Sink>(printer: &mut Printer<'_, W>, bytes: &[u8]) -> Result<(), SinkFailed>
    ensures { Prints printer.old printer.new (map shown_byte bytes.now) result }
{
    for byte in bytes {
        printer.bytes(&[shown_byte(*byte)])?;
    }
    Ok(())
}

/// A byte of a line as it is shown.
fn shown_byte(byte: u8) -> u8
    ensures { result ≡ shown_byte byte }
{
    match byte {
        b'\t' => b' ',
        b' '..=b'~' => byte,
        _ => b'?',
    }
}

/// What stands in place of the bytes that aren't shown.
fn cut_end(line: &[u8]) -> &'static [u8]
    ensures { result.now ≡ cut_end line.now }
{
    if line.len() > SHOWN { b".." } else { b"" }
}
