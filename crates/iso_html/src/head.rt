//! The beginning of the page.
ghost use Rattle.std.specs.Prelude.{◌≡◌};
ghost use Rattle.std.specs.Option.{option_map};
ghost use Rattle.iso_html.specs.Heads.{classes_text, figures_text, first_lines, head_text, heading_text, ok_word, size_text, tests_text, title_text};
ghost use Rattle.iso_tap.specs.Printers.{Prints};

use crate::figures::figures as measured_figures;
use crate::measured::Measured;
use crate::sign::{ok_sign, word_for};
use crate::style::style;
use iso_failures::counts::Counts;
use iso_junit::part::Part;
use iso_junit::writing::parts;
use iso_plan::plan::Plan;
use iso_tap::printer::Printer;
use iso_tap::sink::{Sink, SinkFailed};

/// Writes the beginning of the page of a run with these counts.
pub(crate) fn head<W: Sink>(
    printer: &mut Printer<'_, W>,
    plan: &Plan,
    ok: bool,
    counts: Counts,
    measured: Option<&Measured<'_>>,
) -> Result<(), SinkFailed>
    ensures { Prints printer.old printer.new
        (head_text ok counts (option_map (λ m. m.now) measured.entry)) result }
{
    first_lines(printer)?;
    title(printer, ok, counts)?;
    style(printer)?;
    heading(printer, ok, counts)?;
    figures(printer, plan, counts, measured)
}

/// Writes the first lines: no script and nothing from elsewhere is allowed, and as style the one
/// below alone, by its SHA-256.
fn first_lines<W: Sink>(printer: &mut Printer<'_, W>) -> Result<(), SinkFailed>
    ensures { Prints printer.old printer.new first_lines result }
{
    parts(
        printer,
        &[
            Part::Plain("<!DOCTYPE html>\n<html lang=\"en\">\n<head>\n<meta charset=\"utf-8\">\n"),
            Part::Plain(
                "<meta http-equiv=\"Content-Security-Policy\" content=\"default-src 'none'; style-src 'sha256-jDD970AdXK6Aocb0Dmc70CP1wN7D0GlIPyT/Ks9hnjs='\">\n",
            ),
            Part::Plain(
                "<meta name=\"viewport\" content=\"width=device-width, initial-scale=1\">\n",
            ),
        ],
    )
}

/// Writes the title of the window, up to the style.
fn title<W: Sink>(printer: &mut Printer<'_, W>, ok: bool, counts: Counts) -> Result<(), SinkFailed>
    ensures { Prints printer.old printer.new (title_text ok counts) result }
{
    parts(
        printer,
        &[
            Part::Plain("<title>"),
            Part::Plain(ok_word(ok)),
            Part::Plain(": "),
        ],
    )?;
    size(printer, counts)?;
    printer.bytes(b"</title>\n<style>\n")
}

/// Writes the heading.
fn heading<W: Sink>(
    printer: &mut Printer<'_, W>,
    ok: bool,
    counts: Counts,
) -> Result<(), SinkFailed>
    ensures { Prints printer.old printer.new (heading_text ok counts) result }
{
    parts(
        printer,
        &[
            Part::Plain("</style>\n</head>\n<body>\n<main>\n<h1>"),
            Part::Plain(ok_sign(ok)),
            Part::Plain(": "),
        ],
    )?;
    size(printer, counts)?;
    printer.bytes(b"</h1>\n")
}

/// Writes how many tests and classes there are.
fn size<W: Sink>(printer: &mut Printer<'_, W>, counts: Counts) -> Result<(), SinkFailed>
    ensures { Prints printer.old printer.new (size_text counts) result }
{
    parts(
        printer,
        &[
            Part::Number(counts.tests),
            Part::Plain(word_for(counts.tests, " test in ", " tests in ")),
            Part::Number(counts.classes),
            Part::Plain(word_for(counts.classes, " class", " classes")),
        ],
    )
}

/// Writes the counts, and the figures of what was measured.
fn figures<W: Sink>(
    printer: &mut Printer<'_, W>,
    plan: &Plan,
    counts: Counts,
    measured: Option<&Measured<'_>>,
) -> Result<(), SinkFailed>
    ensures { Prints printer.old printer.new
        (figures_text counts (option_map (λ m. m.now) measured.entry)) result }
{
    tests(printer, counts)?;
    classes(printer, counts.classes_not_ok)?;
    measured_figures(printer, plan, measured)?;
    printer.bytes(b"</ul>\n")
}

/// Writes how many tests came to what.
fn tests<W: Sink>(printer: &mut Printer<'_, W>, counts: Counts) -> Result<(), SinkFailed>
    ensures { Prints printer.old printer.new (tests_text counts) result }
{
    parts(
        printer,
        &[
            Part::Plain("<ul class=\"figures\">\n<li><b>"),
            Part::Number(counts.ok),
            Part::Plain("</b> ok</li>\n<li><b>"),
            Part::Number(counts.skipped),
            Part::Plain("</b> skipped</li>\n<li><b>"),
            Part::Number(counts.not_ok),
            Part::Plain("</b> not ok</li>\n<li><b>"),
            Part::Number(counts.blocked),
            Part::Plain("</b> blocked</li>\n<li><b>"),
        ],
    )
}

/// Writes how many classes failed by themselves.
fn classes<W: Sink>(printer: &mut Printer<'_, W>, count: u32) -> Result<(), SinkFailed>
    ensures { Prints printer.old printer.new (classes_text count) result }
{
    parts(
        printer,
        &[
            Part::Number(count),
            Part::Plain(word_for(
                count,
                "</b> class not ok</li>\n",
                "</b> classes not ok</li>\n",
            )),
        ],
    )
}

/// The word of the page's title.
fn ok_word(ok: bool) -> &'static str
    ensures { result.now ≡ ok_word ok }
{
    if ok { "ok" } else { "not ok" }
}
