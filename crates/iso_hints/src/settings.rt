//! What settings come to, as a text.
ghost use Rattle.std.specs.Prelude.{◌≡◌, ◌==◌, cond, flat_map};
ghost use Rattle.iso_hints.specs.Settings.{setting_line};
ghost use Rattle.iso_hints.specs.SettingsTexts.{more_line, settings_text, unknown_key_line};
ghost use Rattle.iso_tap.specs.Printers.{Prints};

use crate::key::write_unknown;
use crate::setting::{Setting, write_setting, write_workers};
use iso_tap::printer::{Piece, Printer};
use iso_tap::sink::{Sink, SinkFailed};

/// A key that is unknown, and which was meant, if one is near.
#[derive(Clone, Copy)]
pub struct UnknownKey<'a> {
    pub key: &'a str,
    pub meant: Option<&'a str>,
}

/// Writes settings, keys that are unknown and how many there are more, and how many workers they
/// come to and why, each on a line.
pub fn write_settings<W: Sink>(
    printer: &mut Printer<'_, W>,
    settings: &[Setting<'_>],
    unknown: &[UnknownKey<'_>],
    more: u64,
    workers: u32,
    why: &[Piece<'_>],
) -> Result<(), SinkFailed>
    ensures { Prints printer.old printer.new
        (settings_text settings.now unknown.now more workers why.now) result }
{
    setting_lines(printer, settings)?;
    unknown_lines(printer, unknown)?;
    more_line(printer, more)?;
    write_workers(printer, workers, why)
}

/// Writes settings, each on a line.
fn setting_lines<W: Sink>(
    printer: &mut Printer<'_, W>,
    settings: &[Setting<'_>],
) -> Result<(), SinkFailed>
    ensures { Prints printer.old printer.new (flat_map setting_line settings.now) result }
{
    for setting in settings {
        write_setting(printer, setting)?;
    }
    Ok(())
}

/// Writes keys that are unknown, each on a line.
fn unknown_lines<W: Sink>(
    printer: &mut Printer<'_, W>,
    unknown: &[UnknownKey<'_>],
) -> Result<(), SinkFailed>
    ensures { Prints printer.old printer.new (flat_map unknown_key_line unknown.now) result }
{
    for key in unknown {
        write_unknown_key(printer, key)?;
    }
    Ok(())
}

/// Writes how many keys more are unknown, if any are.
fn more_line<W: Sink>(printer: &mut Printer<'_, W>, more: u64) -> Result<(), SinkFailed>
    ensures { Prints printer.old printer.new (more_line more) result }
{
    if more == 0 {
        return Ok(());
    }
    printer.pieces(&[Piece::Number(more), Piece::Plain(b" more unknown\n")])
}

/// Writes a key that is unknown.
fn write_unknown_key<W: Sink>(
    printer: &mut Printer<'_, W>,
    key: &UnknownKey<'_>,
) -> Result<(), SinkFailed>
    ensures { Prints printer.old printer.new (unknown_key_line key.now) result }
{
    write_unknown(printer, key.key, key.meant)
}
