//! The text that lists the slowest tests and classes of a run.
ghost use Rattle.std.specs.Prelude.{◌≡◌, ◌≤◌, All, length, map};
ghost use Rattle.iso_durations.specs.Durations.{durations_text, head_line, text_of};
ghost use Rattle.iso_durations.specs.Entries.{IsListed, entry, entry_line};
ghost use Rattle.iso_durations.specs.Orders.{slowest_first};
ghost use Rattle.iso_durations.specs.Times.{measured, micros};
ghost use Rattle.iso_plan.specs.RowView.{tree_of};
ghost use Rattle.iso_tap.specs.Printers.{Prints, Writes};

use crate::durations::{Durations, Timed, first_of};
use crate::line::{line, line_with_path};
use crate::part::Part;
use crate::tally::{Tally, count};
use iso_plan::plan::Plan;
use iso_tap::fault::TapFault;
use iso_tap::printer::Printer;
use iso_tap::sink::{Sink, SinkFailed};

/// Writes the slowest tests and classes of a run, `most` of them at most, or all where this is 0:
/// a line that says how many they are, of how many, and how long all bodies took, and a line for
/// each, slowest first, those that took as long in the order in which they are written. Each node
/// has its time at its number, in microseconds, a class that of its own blocks; a node without a
/// time isn't listed. The room is for all nodes of the plan, the root too. Takes no memory.
///
/// The sink is asked again where it takes only some bytes, and no more once it has failed.
pub fn write_durations<W: Sink>(
    room: Durations,
    plan: &Plan,
    times: &[Option<u64>],
    most: u32,
    sink: &mut W,
) -> Result<(), TapFault>
    requires room { length plan.now.rows ≤ room }
    ensures { Writes (W.account sink.old) (W.account sink.new)
        (durations_text (tree_of plan.now) times.now most) result }
{
    let slowest = room.slowest(plan, times);
    let mut printer = Printer::new(sink);
    match durations(&mut printer, plan, times, &slowest, most) {
        Ok(()) => Ok(()),
        Err(_) => Err(TapFault {
            written: printer.written(),
        }),
    }
}

/// Writes the text that lists `most` of these nodes, or all where this is 0.
fn durations<W: Sink>(
    printer: &mut Printer<'_, W>,
    plan: &Plan,
    times: &[Option<u64>],
    slowest: &[Timed],
    most: u32,
) -> Result<(), SinkFailed>
    requires { slowest.now ≡ map (entry (micros times.now))
        (slowest_first (micros times.now) (measured (tree_of plan.now) times.now)) }
    ensures { Prints printer.old printer.new
        (durations_text (tree_of plan.now) times.now most) result }
{
    text(printer, plan, first_of(slowest, most), count(plan, times))
}

/// Writes the text that lists these nodes.
fn text<W: Sink>(
    printer: &mut Printer<'_, W>,
    plan: &Plan,
    listed: &[Timed],
    all: Tally,
) -> Result<(), SinkFailed>
    requires { All (IsListed plan.now) listed.now }
    ensures { Prints printer.old printer.new (text_of (tree_of plan.now) listed.now all) result }
{
    head(printer, listed.len() as u64, all)?;
    'listed: for timed in listed {
        entry(printer, plan, timed)?;
    }
    Ok(())
}

/// Writes the first line.
fn head<W: Sink>(printer: &mut Printer<'_, W>, listed: u64, all: Tally) -> Result<(), SinkFailed>
    ensures { Prints printer.old printer.new (head_line listed all) result }
{
    line(
        printer,
        &[
            Part::Plain("slowest "),
            Part::Number(listed),
            Part::Plain(" of "),
            Part::Counted(all.tests, " test", " tests"),
            Part::Plain(" and "),
            Part::Counted(all.classes, " class", " classes"),
            Part::Plain("; all bodies "),
            Part::Seconds(all.micros),
            Part::Plain(" s"),
        ],
    )
}

/// Writes the line of a node.
fn entry<W: Sink>(
    printer: &mut Printer<'_, W>,
    plan: &Plan,
    timed: &Timed,
) -> Result<(), SinkFailed>
    requires { IsListed plan.now timed.now }
    ensures { Prints printer.old printer.new (entry_line (tree_of plan.now) timed.now) result }
{
    line_with_path(
        printer,
        &[Part::Seconds(timed.micros), Part::Plain(" s  ")],
        plan,
        timed.node,
    )
}
