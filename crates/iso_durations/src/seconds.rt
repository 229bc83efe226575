//! Times in seconds.
ghost use Rattle.std.specs.Prelude.{◌≡◌};
ghost use Rattle.iso_durations.specs.Seconds.{last_digit, seconds, six_digits};
ghost use Rattle.iso_tap.specs.Printers.{Prints};

use iso_tap::printer::{Piece, Printer};
use iso_tap::sink::{Sink, SinkFailed};

/// Writes a time in seconds, with six decimals.
pub(crate) fn seconds<W: Sink>(printer: &mut Printer<'_, W>, micros: u64) -> Result<(), SinkFailed>
    ensures { Prints printer.old printer.new (seconds micros) result }
{
    printer.pieces(&[
        Piece::Number(micros / 1_000_000),
        Piece::Plain(b"."),
        Piece::Plain(&six_digits(micros % 1_000_000)),
    ])
}

/// Six digits of a number below a million.
fn six_digits(number: u64) -> [u8; 6]
    ensures { result ≡ six_digits number }
{
    [
        last_digit(number / 100_000),
        last_digit(number / 10_000),
        last_digit(number / 1_000),
        last_digit(number / 100),
        last_digit(number / 10),
        last_digit(number),
    ]
}

/// The last digit of a number.
fn last_digit(number: u64) -> u8
    ensures { result ≡ last_digit number }
{
    b'0' + (number % 10) as u8
}
