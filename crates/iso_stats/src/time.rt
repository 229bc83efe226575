//! Times as they are told.
ghost use Rattle.std.specs.Prelude.{◌≡◌, ◌++◌};
ghost use Rattle.iso_stats.specs.Times.{hundredths, tenths, time};
ghost use Rattle.iso_tap.specs.Printers.{Prints};

use iso_tap::printer::{Piece, Printer};
use iso_tap::sink::{Sink, SinkFailed};

/// Writes a time in nanoseconds: in seconds, below one in milliseconds, and below one of these in
/// microseconds.
pub(crate) fn time<W: Sink>(printer: &mut Printer<'_, W>, nanos: u64) -> Result<(), SinkFailed>
    ensures { Prints printer.old printer.new (time nanos) result }
{
    if nanos < 1_000_000 {
        return hundredths(printer, nanos / 10, " µs");
    }
    if nanos < 1_000_000_000 {
        return hundredths(printer, nanos / 10_000, " ms");
    }
    hundredths(printer, nanos / 10_000_000, " s")
}

/// Writes hundredths as a number with two decimals, and then a unit.
fn hundredths<W: Sink>(
    printer: &mut Printer<'_, W>,
    number: u64,
    unit: &str,
) -> Result<(), SinkFailed>
    ensures { Prints printer.old printer.new (hundredths number ++ unit.now) result }
{
    printer.pieces(&[
        Piece::Number(number / 100),
        Piece::Plain(b"."),
        Piece::Number(number / 10 % 10),
        Piece::Number(number % 10),
        Piece::Plain(unit.as_bytes()),
    ])
}

/// Writes tenths as a number with one decimal.
pub(crate) fn tenths<W: Sink>(printer: &mut Printer<'_, W>, number: u64) -> Result<(), SinkFailed>
    ensures { Prints printer.old printer.new (tenths number) result }
{
    printer.pieces(&[
        Piece::Number(number / 10),
        Piece::Plain(b"."),
        Piece::Number(number % 10),
    ])
}
