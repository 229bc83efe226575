//! The text of a schedule.
ghost use Rattle.std.specs.Fmt.{decimal};
ghost use Rattle.std.specs.Prelude.{◌++◌, codes};
ghost use Rattle.iso_record.specs.Texts.{event_line, schedule_text};
ghost use Rattle.iso_tap.specs.Printers.{Prints, Writes};

use iso_standing::event::Event;
use iso_tap::fault::TapFault;
use iso_tap::printer::{Piece, Printer};
use iso_tap::sink::{Sink, SinkFailed};

/// Writes events as a schedule, a line for each, as `read_schedule` reads it. Takes no memory.
///
/// The sink is asked again where it takes only some bytes, and no more once it has failed.
pub fn write_schedule<W: Sink>(events: &[Event], sink: &mut W) -> Result<(), TapFault>
    ensures { Writes (W.account sink.old) (W.account sink.new) (schedule_text events.now) result }
{
    let mut printer = Printer::new(sink);
    match lines(&mut printer, events) {
        Ok(()) => Ok(()),
        Err(_) => Err(TapFault {
            written: printer.written(),
        }),
    }
}

/// Writes the lines of events.
fn lines<W: Sink>(printer: &mut Printer<'_, W>, events: &[Event]) -> Result<(), SinkFailed>
    ensures { Prints printer.old printer.new (schedule_text events.now) result }
{
    for event in events {
        line(printer, *event)?;
    }
    Ok(())
}

/// Writes the line of an event.
fn line<W: Sink>(printer: &mut Printer<'_, W>, event: Event) -> Result<(), SinkFailed>
    ensures { Prints printer.old printer.new (event_line event) result }
{
    match event {
        Event::Enter { worker, node } => line_of_node(printer, b"enter ", worker, node),
        Event::Step { worker } => line_of_worker(printer, b"step ", worker),
        Event::Leave { worker } => line_of_worker(printer, b"leave ", worker),
        Event::Shut { worker, node } => line_of_node(printer, b"shut ", worker, node),
    }
}

/// Writes a line with a worker.
fn line_of_worker<W: Sink>(
    printer: &mut Printer<'_, W>,
    word: &[u8],
    worker: u32,
) -> Result<(), SinkFailed>
    ensures { Prints printer.old printer.new (word.now ++ decimal worker ++ codes "\n") result }
{
    printer.pieces(&[
        Piece::Plain(word),
        Piece::Number(u64::from(worker)),
        Piece::Plain(b"\n"),
    ])
}

/// Writes a line with a worker and a node.
fn line_of_node<W: Sink>(
    printer: &mut Printer<'_, W>,
    word: &[u8],
    worker: u32,
    node: u32,
) -> Result<(), SinkFailed>
    ensures { Prints printer.old printer.new
        (word.now ++ decimal worker ++ codes " " ++ decimal node ++ codes "\n") result }
{
    printer.pieces(&[
        Piece::Plain(word),
        Piece::Number(u64::from(worker)),
        Piece::Plain(b" "),
        Piece::Number(u64::from(node)),
        Piece::Plain(b"\n"),
    ])
}
