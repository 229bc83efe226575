//! Times in seconds.
ghost use Rattle.std.specs.Prelude.{◌≡◌};
ghost use Rattle.iso_junit.specs.Times.{last_digit, six_digits, time_attribute};
ghost use Rattle.iso_tap.specs.Printers.{Prints};

use iso_tap::printer::{Piece, Printer};
use iso_tap::sink::{Sink, SinkFailed};

/// Writes the attribute of a time, and nothing where none was measured.
pub(crate) fn time_attribute<W: Sink>(
    printer: &mut Printer<'_, W>,
    time: Option<u64>,
) -> Result<(), SinkFailed>
    ensures { Prints printer.old printer.new (time_attribute time) result }
{
    match time {
        None => Ok(()),
        Some(time) => printer.pieces(&[
            Piece::Plain(b" time=\""),
            Piece::Number(time / 1_000_000),
            Piece::Plain(b"."),
            Piece::Plain(&six_digits(time % 1_000_000)),
            Piece::Plain(b"\""),
        ]),
    }
}

/// Six digits of a number below a million.
pub fn six_digits(number: u64) -> [u8; 6]
    ensures { result ≡ six_digits number }
{
    [
        last_digit(number / 100_000),
        last_digit(number / 10_000),
        last_digit(number / 1_000),
        last_digit(number / 100),
        last_digit(number / 10),
        last_digit(number),
    ]
}

/// The last digit of a number.
fn last_digit(number: u64) -> u8
    ensures { result ≡ last_digit number }
{
    b'0' + (number % 10) as u8
}
