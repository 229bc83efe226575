//! The figures of a run that was measured.
ghost use Rattle.std.specs.Prelude.{◌≡◌};
ghost use Rattle.std.specs.Option.{option_map};
ghost use Rattle.iso_html.specs.Figures.{best_text, measured_figures, workers_text};
ghost use Rattle.iso_tap.specs.Printers.{Prints};

use crate::measured::Measured;
use crate::part::Part;
use crate::sign::word_for;
use crate::writing::write_parts;
use iso_plan::plan::Plan;
use iso_stats::figures::{Best, Figures};
use iso_tap::printer::Printer;
use iso_tap::sink::{Sink, SinkFailed};

/// Writes the figures of a run, and nothing where it wasn't measured.
pub(crate) fn figures<W: Sink>(
    printer: &mut Printer<'_, W>,
    plan: &Plan,
    measured: Option<&Measured<'_>>,
) -> Result<(), SinkFailed>
    ensures { Prints printer.old printer.new
        (measured_figures (option_map (λ m. m.now) measured.entry)) result }
{
    match measured {
        Some(measured) => {
            workers(printer, plan, measured.figures())?;
            best(printer, plan, measured.figures().best)
        }
        None => Ok(()),
    }
}

/// Writes the workers, the time from the first begin until the last end, and which part of it they
/// were busy.
fn workers<W: Sink>(
    printer: &mut Printer<'_, W>,
    plan: &Plan,
    figures: &Figures,
) -> Result<(), SinkFailed>
    ensures { Prints printer.old printer.new (workers_text figures.now) result }
{
    write_parts(
        printer,
        plan,
        &[
            Part::Plain("<li><b>"),
            Part::Number(u64::from(figures.workers)),
            Part::Plain(" of "),
            Part::Number(u64::from(figures.of)),
            Part::Plain(word_for(
                figures.of,
                "</b> worker</li>\n<li><b>",
                "</b> workers</li>\n<li><b>",
            )),
            Part::Seconds(figures.span),
            Part::Plain("</b> wall time</li>\n<li><b>"),
            Part::Number(figures.busy),
            Part::Plain(" %</b> busy</li>\n"),
        ],
    )
}

/// Writes how fast the run is at best, and nothing where that isn't told.
fn best<W: Sink>(
    printer: &mut Printer<'_, W>,
    plan: &Plan,
    best: Option<Best>,
) -> Result<(), SinkFailed>
    ensures { Prints printer.old printer.new (best_text best) result }
{
    match best {
        Some(best) => write_parts(
            printer,
            plan,
            &[
                Part::Plain("<li><b>"),
                Part::Tenths(best.tenths),
                Part::Plain(" times</b> at best</li>\n"),
            ],
        ),
        None => Ok(()),
    }
}
