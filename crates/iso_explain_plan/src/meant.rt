//! What was meant.
ghost use Rattle.std.specs.Prelude.{◌∷◌, [], map};
ghost use Rattle.iso_explain_plan.specs.Meant.{did_you_mean};
ghost use Rattle.iso_tap.specs.Printers.{Prints};

use crate::note::note;
use crate::part::Part;
use iso_tap::printer::Printer;
use iso_tap::sink::{Sink, SinkFailed};

/// Writes which of up to three paths were meant; of more the first three, and nothing where there
/// is none.
pub(crate) fn did_you_mean<W: Sink>(
    printer: &mut Printer<'_, W>,
    paths: &[&str],
) -> Result<(), SinkFailed>
    ensures { Prints printer.old printer.new (did_you_mean (map (λ p. p.now) paths.now)) result }
{
    match paths {
        [] => Ok(()),
        [only] => one(printer, *only),
        [first, second] => two(printer, *first, *second),
        [first, second, third, ..] => three(printer, *first, *second, *third),
    }
}

/// Writes that a path was meant.
fn one<W: Sink>(printer: &mut Printer<'_, W>, path: &str) -> Result<(), SinkFailed>
    ensures { Prints printer.old printer.new (did_you_mean (path.now ∷ [])) result }
{
    note(
        printer,
        &[
            Part::Plain("did you mean "),
            Part::Shown(path),
            Part::Plain("?"),
        ],
    )
}

/// Writes that one of two paths was meant.
fn two<'a, W: Sink>(
    printer: &mut Printer<'_, W>,
    first: &'a str,
    second: &'a str,
) -> Result<(), SinkFailed>
    ensures { Prints printer.old printer.new (did_you_mean (first.now ∷ second.now ∷ [])) result }
{
    note(
        printer,
        &[
            Part::Plain("did you mean "),
            Part::Shown(first),
            Part::Plain(" or "),
            Part::Shown(second),
            Part::Plain("?"),
        ],
    )
}

/// Writes that one of three paths was meant.
fn three<'a, W: Sink>(
    printer: &mut Printer<'_, W>,
    first: &'a str,
    second: &'a str,
    third: &'a str,
) -> Result<(), SinkFailed>
    ensures { Prints printer.old printer.new
        (did_you_mean (first.now ∷ second.now ∷ third.now ∷ [])) result }
{
    note(
        printer,
        &[
            Part::Plain("did you mean "),
            Part::Shown(first),
            Part::Plain(", "),
            Part::Shown(second),
            Part::Plain(" or "),
            Part::Shown(third),
            Part::Plain("?"),
        ],
    )
}
