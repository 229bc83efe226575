//! The explanation of a fault.
ghost use Rattle.std.specs.Prelude.{◌≡◌, ℕ, List, option_map};
ghost use Rattle.iso_explain.specs.Explanations.{explanation, notes, picture_of};
ghost use Rattle.iso_explain.specs.Spots.{IsPlaceOf, IsSpotOf, line_of};
ghost use Rattle.iso_tap.specs.Printers.{Prints};

use crate::bound::bound;
use crate::hints::{hint_of, other_of};
use crate::label::label_of;
use crate::note::{brace, first, mending};
use crate::spot::{Spot, spot_of};
use iso_hints::picture::write_caret;
use iso_hints::place::Place;
use iso_script::explain::Explained;
use iso_tap::printer::{Piece, Printer};
use iso_tap::sink::{Sink, SinkFailed};

/// For a runner of one's own: writes what mends a script that these bytes should have been, the
/// line of the fault with carets and what could have stood there, and below it what else there is
/// to be told. A word may be given that was meant in the place of the fault. Takes no memory.
pub fn write_explanation<W: Sink>(
    bytes: &[u8],
    explained: &Explained<'_>,
    meant: Option<&str>,
    printer: &mut Printer<'_, W>,
) -> Result<(), SinkFailed>
    ensures { Prints printer.old printer.new
        (explanation bytes.now explained.now (option_map (λ w. w.now) meant.entry)) result }
{
    write_at(&spot_of(bytes, explained.fault), explained, meant, printer)
}

/// The same, where it is known where the fault is.
pub(crate) fn write_at<W: Sink>(
    spot: &Spot<'_>,
    explained: &Explained<'_>,
    meant: Option<&str>,
    printer: &mut Printer<'_, W>,
) -> Result<(), SinkFailed>
    ensures { (bytes : List ℕ) → IsSpotOf spot.now bytes explained.now.fault
        → Prints printer.old printer.new
        (explanation bytes explained.now (option_map (λ w. w.now) meant.entry)) result }
{
    picture(printer, spot.line, explained)?;
    notes(printer, &spot.place, explained, meant)
}

/// Writes the line of the fault, with carets and a label.
fn picture<W: Sink>(
    printer: &mut Printer<'_, W>,
    line: &[u8],
    explained: &Explained<'_>,
) -> Result<(), SinkFailed>
    ensures { (bytes : List ℕ) → line.now ≡ line_of bytes explained.now.fault.line
        → Prints printer.old printer.new (picture_of bytes explained.now) result }
{
    let fault = explained.fault;
    let label = label_of(fault.kind, explained.reason);
    write_caret(
        printer,
        fault.line,
        line,
        fault.column,
        explained.width,
        &[
            Piece::Plain(label.lead.as_bytes()),
            Piece::Plain(label.first.as_bytes()),
            Piece::Plain(label.between.as_bytes()),
            Piece::Plain(label.second.as_bytes()),
            Piece::Plain(label.end.as_bytes()),
        ],
    )
}

/// Writes the lines below the picture.
fn notes<W: Sink>(
    printer: &mut Printer<'_, W>,
    place: &Place<'_>,
    explained: &Explained<'_>,
    meant: Option<&str>,
) -> Result<(), SinkFailed>
    ensures { (bytes : List ℕ) → IsPlaceOf place.now bytes explained.now.fault
        → Prints printer.old printer.new
        (notes bytes explained.now (option_map (λ w. w.now) meant.entry)) result }
{
    let hint = hint_of(place, explained);
    let other = other_of(place, explained);
    mending(printer, hint, meant, other)?;
    first(printer, explained.first)?;
    brace(printer, explained)?;
    bound(printer, explained.fault.kind, explained.reason)
}
