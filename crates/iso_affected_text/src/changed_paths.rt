//! The paths of what is to be run again.
ghost use Rattle.std.specs.Prelude.{◌≡◌, map};
ghost use Rattle.iso_affected_text.specs.Rows.{row_of};
ghost use Rattle.iso_affected_text.specs.Texts.{path_line, paths_text};
ghost use Rattle.iso_tap.specs.Printers.{Prints, Writes};

use crate::row::{Became, Row};
use crate::word::{Word, words};
use iso_tap::fault::TapFault;
use iso_tap::printer::Printer;
use iso_tap::sink::{Sink, SinkFailed};

/// Writes the paths of changed and new nodes alone, one a line. Takes no memory.
///
/// The sink is asked again where it takes only some bytes, and no more once it has failed.
pub fn write_paths<W: Sink>(rows: &[Row<'_>], sink: &mut W) -> Result<(), TapFault>
    ensures { Writes (W.account sink.old) (W.account sink.new)
        (paths_text (map row_of rows.now)) result }
{
    let mut printer = Printer::new(sink);
    match paths(&mut printer, rows) {
        Ok(()) => Ok(()),
        Err(_) => Err(TapFault {
            written: printer.written(),
        }),
    }
}

/// Writes the paths of rows that have one to run again.
fn paths<W: Sink>(printer: &mut Printer<'_, W>, rows: &[Row<'_>]) -> Result<(), SinkFailed>
    ensures { Prints printer.old printer.new (paths_text (map row_of rows.now)) result }
{
    for row in rows {
        path(printer, row)?;
    }
    Ok(())
}

/// Writes the path of a row of a changed or a new node, and nothing of another.
fn path<W: Sink>(printer: &mut Printer<'_, W>, row: &Row<'_>) -> Result<(), SinkFailed>
    ensures { Prints printer.old printer.new (path_line (row_of row.now)) result }
{
    match *row {
        Row::Node {
            became: Became::Changed | Became::New,
            path,
        } => words(printer, &[Word::Plain(path), Word::Plain("\n")]),
        _ => Ok(()),
    }
}
