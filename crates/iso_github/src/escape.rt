//! Texts as they stand in commands.
ghost use Rattle.std.specs.Prelude.{◌≡◌, flat_map};
ghost use Rattle.iso_github.specs.Commands.{in_message, in_property, message_byte, property_byte};
ghost use Rattle.iso_tap.specs.Printers.{Prints};

use iso_tap::printer::Printer;
use iso_tap::sink::{Sink, SinkFailed};

/// Writes a text as a message.
pub(crate) fn message<W: Sink>(printer: &mut Printer<'_, W>, text: &[u8]) -> Result<(), SinkFailed>
    ensures { Prints printer.old printer.new (in_message text.now) result }
{
    for byte in text {
        message_byte(printer, *byte)?;
    }
    Ok(())
}

/// Writes a text as a property.
pub(crate) fn property<W: Sink>(printer: &mut Printer<'_, W>, text: &[u8]) -> Result<(), SinkFailed>
    ensures { Prints printer.old printer.new (in_property text.now) result }
{
    for byte in text {
        property_byte(printer, *byte)?;
    }
    Ok(())
}

/// Writes a byte of a message.
fn message_byte<W: Sink>(printer: &mut Printer<'_, W>, byte: u8) -> Result<(), SinkFailed>
    ensures { Prints printer.old printer.new (message_byte byte) result }
{
    match byte {
        b'%' => printer.bytes(b"%25"),
        b'\r' => printer.bytes(b"%0D"),
        b'\n' => printer.bytes(b"%0A"),
        _ => printer.bytes(&[byte]),
    }
}

/// Writes a byte of a property.
fn property_byte<W: Sink>(printer: &mut Printer<'_, W>, byte: u8) -> Result<(), SinkFailed>
    ensures { Prints printer.old printer.new (property_byte byte) result }
{
    match byte {
        b':' => printer.bytes(b"%3A"),
        b',' => printer.bytes(b"%2C"),
        _ => message_byte(printer, byte),
    }
}
