//! What mends a fault of a schedule.
ghost use Rattle.std.specs.Prelude.{◌≡◌, OnErr, OnOk};
ghost use Rattle.iso_explain_plan.specs.Schedules.{bad_line_text, big_number_text, event_notes, fault_text, length_note, line_text, longest_word, number_note, shown_width};
ghost use Rattle.iso_tap.specs.Printers.{Prints};
ghost use Rattle.iso_tap.specs.Sinks.{CutOff, Wrote};

use crate::line::line_at;
use crate::note::note;
use crate::part::Part;
use iso_hints::picture::write_caret;
use iso_model::limits::FILE_BYTES;
use iso_schedule::fault::{ScheduleFault, ScheduleFaultKind};
use iso_tap::printer::{Piece, Printer};
use iso_tap::sink::{Sink, SinkFailed};

/// How many bytes of a line are shown at most.
const SHOWN: usize = 160;
/// The most digits of a number.
const DIGITS: u64 = 9;

/// Writes what mends bytes that are no schedule: the line of the fault, and how an event is
/// written, or how large a number may be and how large it is, or how large a schedule may be. Takes
/// no memory.
pub fn explain_fault<W: Sink>(
    fault: ScheduleFault,
    schedule: &[u8],
    sink: &mut W,
) -> Result<(), SinkFailed>
    ensures wrote { OnOk result
        (Wrote (W.account sink.old) (W.account sink.new) (fault_text fault schedule.now)) }
    ensures cut { OnErr result
        (CutOff (W.account sink.old) (W.account sink.new) (fault_text fault schedule.now)) }
{
    let mut printer = Printer::new(sink);
    write_fault(&mut printer, fault, schedule)
}

/// Writes it.
fn write_fault<W: Sink>(
    printer: &mut Printer<'_, W>,
    fault: ScheduleFault,
    schedule: &[u8],
) -> Result<(), SinkFailed>
    ensures { Prints printer.old printer.new (fault_text fault schedule.now) result }
{
    let line = line_at(schedule, fault.line);
    match fault.kind {
        ScheduleFaultKind::BadLine => bad_line(printer, fault.line, line),
        ScheduleFaultKind::NumberTooBig => big_number(printer, fault.line, line),
        ScheduleFaultKind::TooLong => length_note(printer),
    }
}

/// Writes of a line that it is no event.
fn bad_line<W: Sink>(
    printer: &mut Printer<'_, W>,
    number: u32,
    line: &[u8],
) -> Result<(), SinkFailed>
    ensures { Prints printer.old printer.new (bad_line_text number line.now) result }
{
    line_text(printer, number, line, "this is no event")?;
    event_notes(printer)
}

/// Writes of a line that a number in it is too long.
fn big_number<W: Sink>(
    printer: &mut Printer<'_, W>,
    number: u32,
    line: &[u8],
) -> Result<(), SinkFailed>
    ensures { Prints printer.old printer.new (big_number_text number line.now) result }
{
    line_text(printer, number, line, "a number here is too long")?;
    number_note(printer, longest_word(line))
}

/// Writes a line with carets and a label.
pub(crate) fn line_text<W: Sink>(
    printer: &mut Printer<'_, W>,
    number: u32,
    line: &[u8],
    label: &str,
) -> Result<(), SinkFailed>
    ensures { Prints printer.old printer.new (line_text number line.now label.now) result }
{
    write_caret(
        printer,
        number,
        line,
        1,
        shown_width(line),
        &[Piece::Plain(label.as_bytes())],
    )
}

/// How many bytes of a line are shown at most.
fn shown_width(line: &[u8]) -> u32
    ensures { result ≡ shown_width line.now }
{
    line.len().min(SHOWN) as u32
}

/// Writes how an event is written.
fn event_notes<W: Sink>(printer: &mut Printer<'_, W>) -> Result<(), SinkFailed>
    ensures { Prints printer.old printer.new event_notes result }
{
    note(
        printer,
        &[Part::Plain(
            "an event is `enter W N`, `step W`, `leave W` or `shut W N`: W is a worker, N a node, both in digits",
        )],
    )?;
    note(
        printer,
        &[Part::Plain("spaces stand between its words, and none before or behind them")],
    )
}

/// Writes how many digits a number may have, and that this one has `digits`.
fn number_note<W: Sink>(printer: &mut Printer<'_, W>, digits: usize) -> Result<(), SinkFailed>
    ensures { Prints printer.old printer.new (number_note digits) result }
{
    note(
        printer,
        &[
            Part::Plain("it has "),
            Part::Number(digits as u64),
            Part::Plain(" digits, and at most "),
            Part::Number(DIGITS),
            Part::Plain(" are read, zeros in front among them"),
        ],
    )
}

/// Writes how many bytes a schedule may have.
fn length_note<W: Sink>(printer: &mut Printer<'_, W>) -> Result<(), SinkFailed>
    ensures { Prints printer.old printer.new length_note result }
{
    note(
        printer,
        &[
            Part::Plain("at most "),
            Part::Number(FILE_BYTES as u64),
            Part::Plain(" bytes stand in a schedule"),
        ],
    )
}

/// How many bytes the longest word of a line has.
fn longest_word(line: &[u8]) -> usize
    ensures { result ≡ longest_word line.now }
{
    let mut longest: usize = 0;
    let mut run: usize = 0;
    for byte in line {
        run = if *byte == b' ' { 0 } else { run + 1 };
        longest = longest.max(run);
    }
    longest
}
