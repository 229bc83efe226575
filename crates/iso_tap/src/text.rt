//! Texts as they are.
ghost use Rattle.iso_tap.specs.Printers.{Writes};

use crate::fault::TapFault;
use crate::printer::{Piece, Printer};
use crate::sink::Sink;

/// Writes a text as it is. Takes no memory.
///
/// The sink is asked again where it takes only some bytes, and no more once it has failed.
pub fn write_text<W: Sink>(text: &str, sink: &mut W) -> Result<(), TapFault>
    ensures { Writes (W.account sink.old) (W.account sink.new) text.now result }
{
    let mut printer = Printer::new(sink);
    match printer.piece(&Piece::Plain(text.as_bytes())) {
        Ok(()) => Ok(()),
        Err(_) => Err(TapFault {
            written: printer.written(),
        }),
    }
}
