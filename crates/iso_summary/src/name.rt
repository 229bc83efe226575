//! Names of files as they are shown.
ghost use Rattle.std.specs.Prelude.{◌≡◌, ◌%◌, flat_map, chars};
ghost use Rattle.iso_summary.specs.Names.{escape, hex_digit, long_escape, planned_char, planned_name, shown_as, shown_char, shown_name, short_escape};
ghost use Rattle.iso_tap.specs.Printers.{Prints};

use crate::unseen::is_unseen;
use iso_tap::printer::Printer;
use iso_tap::sink::{Sink, SinkFailed};

/// Writes a file's name, with the characters that no reader sees as in a basic string of TOML: it
/// stays in its line, it is read as it is spelled, and no terminal obeys it. Takes no memory.
///
/// The sink is asked again where it takes only some bytes, and no more once it has failed.
pub fn name<W: Sink>(printer: &mut Printer<'_, W>, name: &str) -> Result<(), SinkFailed>
    ensures { Prints printer.old printer.new (shown_name name.now) result }
{
    for c in name.chars() {
        char(printer, c)?;
    }
    Ok(())
}

/// Writes a file's name as a printed plan has it, with control characters alone as in a basic
/// string of TOML. Takes no memory.
///
/// The sink is asked again where it takes only some bytes, and no more once it has failed.
pub fn planned_name<W: Sink>(printer: &mut Printer<'_, W>, name: &str) -> Result<(), SinkFailed>
    ensures { Prints printer.old printer.new (planned_name name.now) result }
{
    for c in name.chars() {
        planned_char(printer, c)?;
    }
    Ok(())
}

/// Writes a character of a name, by its escape if no reader sees it.
fn char<W: Sink>(printer: &mut Printer<'_, W>, c: char) -> Result<(), SinkFailed>
    ensures { Prints printer.old printer.new (shown_char c) result }
{
    char_as(printer, c, is_unseen(c))
}

/// Writes a character of a name as a printed plan has it.
fn planned_char<W: Sink>(printer: &mut Printer<'_, W>, c: char) -> Result<(), SinkFailed>
    ensures { Prints printer.old printer.new (planned_char c) result }
{
    char_as(printer, c, c.is_control())
}

/// Writes a character, by its escape if it isn't to be seen.
fn char_as<W: Sink>(printer: &mut Printer<'_, W>, c: char, hidden: bool) -> Result<(), SinkFailed>
    ensures { Prints printer.old printer.new (shown_as hidden c) result }
{
    match c {
        '\n' => printer.bytes(b"\\n"),
        '\r' => printer.bytes(b"\\r"),
        '\t' => printer.bytes(b"\\t"),
        _ if hidden => escape(printer, c as u32),
        _ => {
            let mut bytes = [0; 4];
            printer.bytes(c.encode_utf8(&mut bytes).as_bytes())
        }
    }
}

/// Writes a character by its number, with as many digits as it takes: four or eight.
fn escape<W: Sink>(printer: &mut Printer<'_, W>, number: u32) -> Result<(), SinkFailed>
    ensures { Prints printer.old printer.new (escape number) result }
{
    if number < 65_536 {
        printer.bytes(&short_escape(number))
    } else {
        printer.bytes(&long_escape(number))
    }
}

/// The escape with four digits.
fn short_escape(number: u32) -> [u8; 6]
    ensures { result ≡ short_escape number }
{
    [
        b'\\',
        b'u',
        last_digit(number / 4_096),
        last_digit(number / 256),
        last_digit(number / 16),
        last_digit(number),
    ]
}

/// The escape with eight digits.
fn long_escape(number: u32) -> [u8; 10]
    ensures { result ≡ long_escape number }
{
    [
        b'\\',
        b'U',
        last_digit(number / 268_435_456),
        last_digit(number / 16_777_216),
        last_digit(number / 1_048_576),
        last_digit(number / 65_536),
        last_digit(number / 4_096),
        last_digit(number / 256),
        last_digit(number / 16),
        last_digit(number),
    ]
}

/// The last digit of a number in base 16.
fn last_digit(number: u32) -> u8
    ensures { result ≡ hex_digit (number % 16) }
{
    let digit = (number % 16) as u8;
    if digit < 10 {
        b'0' + digit
    } else {
        b'A' - 10 + digit
    }
}
