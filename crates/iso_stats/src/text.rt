//! The figures of a run as text.
ghost use Rattle.std.specs.Prelude.{◌≡◌, map};
ghost use Rattle.iso_plan.specs.RowView.{tree_of};
ghost use Rattle.iso_stats.specs.Parts.{joined};
ghost use Rattle.iso_stats.specs.StatsText.{best_by, best_lines, chain_line, chain_lines, first_line, line_text, stats_text, waited_line, waited_lines};
ghost use Rattle.iso_tap.specs.Printers.{Prints, Writes};

use crate::figures::{Best, Chain, Figures, Waited, Without};
use crate::part::Part;
use crate::writing::parts;
use iso_plan::plan::Plan;
use iso_tap::fault::TapFault;
use iso_tap::printer::Printer;
use iso_tap::sink::{Sink, SinkFailed};

/// A line, where there is something to tell.
#[derive(Clone, Copy)]
enum Line<'a> {
    First(&'a Figures),
    Waits(Option<Waited>),
    LongestChain(Option<Chain>),
    AtBest(Option<Best>),
}

/// Writes the figures of a run of a plan: its workers and its time; the key that was waited for
/// longest; the longest chain; and how fast it is at best. The last three are left out where the
/// figures have none. Takes no memory.
///
/// The sink is asked again where it takes only some bytes, and no more once it has failed.
pub fn write_stats<W: Sink>(plan: &Plan, figures: &Figures, sink: &mut W) -> Result<(), TapFault>
    ensures { Writes (W.account sink.old) (W.account sink.new)
        (stats_text (tree_of plan.now) figures.now) result }
{
    let mut printer = Printer::new(sink);
    match stats(&mut printer, plan, figures) {
        Ok(()) => Ok(()),
        Err(_) => Err(TapFault {
            written: printer.written(),
        }),
    }
}

/// Writes all lines.
fn stats<W: Sink>(
    printer: &mut Printer<'_, W>,
    plan: &Plan,
    figures: &Figures,
) -> Result<(), SinkFailed>
    ensures { Prints printer.old printer.new (stats_text (tree_of plan.now) figures.now) result }
{
    lines(
        printer,
        plan,
        &[
            Line::First(figures),
            Line::Waits(figures.waited),
            Line::LongestChain(figures.chain),
            Line::AtBest(figures.best),
        ],
    )
}

/// Writes lines, one after another.
fn lines<W: Sink>(
    printer: &mut Printer<'_, W>,
    plan: &Plan,
    lines: &[Line<'_>],
) -> Result<(), SinkFailed>
    ensures { Prints printer.old printer.new
        (joined (map (line_text (tree_of plan.now)) lines.now)) result }
{
    for line in lines {
        write_line(printer, plan, line)?;
    }
    Ok(())
}

/// Writes a line.
fn write_line<W: Sink>(
    printer: &mut Printer<'_, W>,
    plan: &Plan,
    line: &Line<'_>,
) -> Result<(), SinkFailed>
    ensures { Prints printer.old printer.new (line_text (tree_of plan.now) line.now) result }
{
    match *line {
        Line::First(figures) => first(printer, plan, figures),
        Line::Waits(Some(waited)) => waits(printer, plan, waited),
        Line::LongestChain(Some(found)) => chain(printer, plan, found),
        Line::AtBest(Some(found)) => best(printer, plan, found.tenths, found.without),
        Line::Waits(None) | Line::LongestChain(None) | Line::AtBest(None) => printer.bytes(b""),
    }
}

/// Writes the line of the workers.
fn first<W: Sink>(
    printer: &mut Printer<'_, W>,
    plan: &Plan,
    figures: &Figures,
) -> Result<(), SinkFailed>
    ensures { Prints printer.old printer.new (first_line figures.now) result }
{
    parts(
        printer,
        plan,
        &[
            Part::Counted(figures.tests, " test"),
            Part::Plain(", "),
            Part::Number(u64::from(figures.workers)),
            Part::Plain(" of "),
            Part::Counted(figures.of, " worker"),
            Part::Plain(", "),
            Part::Time(figures.span),
            Part::Plain("; busy "),
            Part::Number(figures.busy),
            Part::Plain(" %\n"),
        ],
    )
}

/// Writes the line of what was waited for.
fn waits<W: Sink>(
    printer: &mut Printer<'_, W>,
    plan: &Plan,
    waited: Waited,
) -> Result<(), SinkFailed>
    ensures { Prints printer.old printer.new (waited_line (tree_of plan.now) waited) result }
{
    parts(
        printer,
        plan,
        &[
            Part::Plain("waited "),
            Part::Time(waited.time),
            Part::Plain(" for "),
            Part::Key(waited.key),
            Part::Plain(" ("),
            Part::Node(waited.node),
            Part::Plain(" for "),
            Part::Node(waited.holder),
            Part::Plain(" "),
            Part::Time(waited.longest),
            Part::More(waited.more, "; .."),
            Part::Plain(")\n"),
        ],
    )
}

/// Writes the line of a chain.
fn chain<W: Sink>(printer: &mut Printer<'_, W>, plan: &Plan, chain: Chain) -> Result<(), SinkFailed>
    ensures { Prints printer.old printer.new (chain_line (tree_of plan.now) chain) result }
{
    parts(
        printer,
        plan,
        &[
            Part::Plain("longest chain "),
            Part::Time(chain.time),
            Part::Plain(": "),
            Part::Link(chain.link),
            Part::Plain(": "),
            Part::Node(chain.first),
            Part::Comma(chain.second),
            Part::NodeIf(chain.second),
            Part::Comma(chain.third),
            Part::NodeIf(chain.third),
            Part::More(chain.more, ", .."),
            Part::Plain("\n"),
        ],
    )
}

/// Writes the line of how fast a run is at best.
fn best<W: Sink>(
    printer: &mut Printer<'_, W>,
    plan: &Plan,
    tenths: u64,
    without: Option<Without>,
) -> Result<(), SinkFailed>
    ensures { Prints printer.old printer.new (best_by (tree_of plan.now) tenths without) result }
{
    match without {
        Some(without) => parts(
            printer,
            plan,
            &[
                Part::Plain("at best "),
                Part::Tenths(tenths),
                Part::Plain(" times as fast as one worker; without "),
                Part::Key(without.key),
                Part::Plain(" "),
                Part::Tenths(without.tenths),
                Part::Plain(" times\n"),
            ],
        ),
        None => parts(
            printer,
            plan,
            &[
                Part::Plain("at best "),
                Part::Tenths(tenths),
                Part::Plain(" times as fast as one worker\n"),
            ],
        ),
    }
}
