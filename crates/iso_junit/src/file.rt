//! Names of files.
ghost use Rattle.std.specs.Prelude.{◌≡◌, chars, flat_map};
ghost use Rattle.iso_junit.specs.Escapes.{escaped};
ghost use Rattle.iso_junit.specs.Files.{file_char, file_name};
ghost use Rattle.iso_summary.specs.Names.{shown_char};
ghost use Rattle.iso_tap.specs.Printers.{Prints};

use crate::escape::escaped;
use iso_summary::name::name;
use iso_summary::unseen::is_unseen;
use iso_tap::printer::Printer;
use iso_tap::sink::{Sink, SinkFailed};

/// Writes a file's name, with the characters that no reader sees and those that XML doesn't allow
/// by their escapes.
pub fn file<W: Sink>(printer: &mut Printer<'_, W>, file: &str) -> Result<(), SinkFailed>
    ensures { Prints printer.old printer.new (escaped (file_name file.now)) result }
{
    for c in file.chars() {
        char(printer, c)?;
    }
    Ok(())
}

/// Writes a character of a name.
fn char<W: Sink>(printer: &mut Printer<'_, W>, c: char) -> Result<(), SinkFailed>
    ensures { Prints printer.old printer.new (escaped (file_char c)) result }
{
    match c {
        '\u{FFFE}' => printer.bytes(b"\\uFFFE"),
        '\u{FFFF}' => printer.bytes(b"\\uFFFF"),
        _ => shown(printer, c),
    }
}

/// Writes a character, one that no reader sees by its escape, which has nothing special.
fn shown<W: Sink>(printer: &mut Printer<'_, W>, c: char) -> Result<(), SinkFailed>
    ensures { Prints printer.old printer.new (escaped (shown_char c)) result }
{
    let mut bytes = [0; 4];
    let text = c.encode_utf8(&mut bytes);
    if is_unseen(c) {
        name(printer, text)
    } else {
        escaped(printer, text.as_bytes())
    }
}
