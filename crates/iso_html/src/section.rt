//! What the page tells of what was measured.
ghost use Rattle.std.specs.Prelude.{◌≡◌, flat_map, length, map};
ghost use Rattle.std.specs.Option.{option_map};
ghost use Rattle.iso_html.specs.Sections.{axis_text, chain_end, chain_line, chain_text, key_line, keys_text, measures_text, one_key, section_text, sections_text, slow_line};
ghost use Rattle.iso_junit.specs.Runs.{run_of};
ghost use Rattle.iso_junit.specs.Texts.{joined};
ghost use Rattle.iso_lifecycle.specs.ResultViews.{AreComplete};
ghost use Rattle.iso_plan.specs.KeyTable.{keys};
ghost use Rattle.iso_plan.specs.RowView.{tree_of};
ghost use Rattle.iso_tap.specs.Printers.{Prints};

use crate::drawing::shapes;
use crate::measured::Measured;
use crate::part::Part;
use crate::slowest::Timed;
use crate::usage::{Usage, usage_at};
use crate::writing::write_parts;
use iso_junit::run::Run;
use iso_plan::plan::Plan;
use iso_stats::figures::Chain;
use iso_tap::printer::Printer;
use iso_tap::sink::{Sink, SinkFailed};

/// A section of what was measured.
#[derive(Clone, Copy)]
enum Section<'a> {
    Plain(&'a str),
    Picture,
    Axis,
    Keys,
    LongestChain,
    Slowest,
}

/// Writes what was measured, and nothing where nothing was.
pub(crate) fn sections<W: Sink>(
    printer: &mut Printer<'_, W>,
    run: &Run<'_, '_>,
    measured: Option<&Measured<'_>>,
) -> Result<(), SinkFailed>
    requires complete { AreComplete run.now.results.now }
    ensures { Prints printer.old printer.new
        (sections_text (run_of run.now) (option_map (λ m. m.now) measured.entry)) result }
{
    match measured {
        Some(measured) => measures(printer, run, measured),
        None => Ok(()),
    }
}

/// Writes what was measured.
fn measures<W: Sink>(
    printer: &mut Printer<'_, W>,
    run: &Run<'_, '_>,
    measured: &Measured<'_>,
) -> Result<(), SinkFailed>
    requires complete { AreComplete run.now.results.now }
    ensures { Prints printer.old printer.new (measures_text (run_of run.now) measured.now) result }
{
    all(
        printer,
        run,
        measured,
        &[
            Section::Plain("<h2>The run</h2>\n<div class=\"run\">\n<ol>\n"),
            Section::Picture,
            Section::Axis,
            Section::Plain(
                "<h2>Locks</h2>\n<div class=\"wide\">\n<table>\n<thead><tr><th scope=\"col\">key</th><th scope=\"col\" class=\"n\">readers</th><th scope=\"col\" class=\"n\">writers</th><th scope=\"col\" class=\"n\">held</th><th scope=\"col\" class=\"n\">waited for</th></tr></thead>\n<tbody>\n",
            ),
            Section::Keys,
            Section::Plain(
                "</tbody>\n</table>\n</div>\n<p><small>The times of a key are added up over the nodes that take it, and over those that waited for it.</small></p>\n",
            ),
            Section::LongestChain,
            Section::Plain(
                "<h2>Slowest</h2>\n<div class=\"wide\">\n<table>\n<thead><tr><th scope=\"col\">path</th><th scope=\"col\" class=\"n\">time</th></tr></thead>\n<tbody>\n",
            ),
            Section::Slowest,
            Section::Plain("</tbody>\n</table>\n</div>\n"),
        ],
    )
}

/// Writes sections, one after another.
fn all<W: Sink>(
    printer: &mut Printer<'_, W>,
    run: &Run<'_, '_>,
    measured: &Measured<'_>,
    sections: &[Section<'_>],
) -> Result<(), SinkFailed>
    requires complete { AreComplete run.now.results.now }
    ensures { Prints printer.old printer.new
        (joined (map (section_text (run_of run.now) measured.now) sections.now)) result }
{
    for section in sections {
        write_section(printer, run, measured, section)?;
    }
    Ok(())
}

/// Writes a section.
fn write_section<W: Sink>(
    printer: &mut Printer<'_, W>,
    run: &Run<'_, '_>,
    measured: &Measured<'_>,
    section: &Section<'_>,
) -> Result<(), SinkFailed>
    requires complete { AreComplete run.now.results.now }
    ensures { Prints printer.old printer.new
        (section_text (run_of run.now) measured.now section.now) result }
{
    match *section {
        Section::Plain(text) => printer.bytes(text.as_bytes()),
        Section::Picture => shapes(printer, run, measured.figures().span, measured.shapes()),
        Section::Axis => axis(printer, run.plan, measured.figures().span),
        Section::Keys => keys(printer, run, measured),
        Section::LongestChain => chain(printer, run.plan, measured.figures().chain),
        Section::Slowest => slowest(printer, run.plan, measured.slowest()),
    }
}

/// Writes the axis of the picture, and what its bars mean.
fn axis<W: Sink>(printer: &mut Printer<'_, W>, plan: &Plan, span: u64) -> Result<(), SinkFailed>
    ensures { Prints printer.old printer.new (axis_text span) result }
{
    write_parts(
        printer,
        plan,
        &[
            Part::Plain("<div class=\"run\">\n<p><span>0.000000 s</span><span>"),
            Part::Seconds(span),
            Part::Plain(
                "</span></p>\n</div>\n<p><small>A framed bar is a critical body: each of them had to wait for the one before it, up to the end of the run. A high red bar is a body of a node that failed. In the row of a key that was waited for are the nodes that had it, high ones for READ_WRITE. What is thinner than a pixel is drawn as one bar, with its number, and framed where one of its bodies is critical.</small></p>\n",
            ),
        ],
    )
}

/// Writes the lines of all keys, by their numbers.
fn keys<W: Sink>(
    printer: &mut Printer<'_, W>,
    run: &Run<'_, '_>,
    measured: &Measured<'_>,
) -> Result<(), SinkFailed>
    ensures { Prints printer.old printer.new
        (keys_text (run_of run.now) measured.now (length (keys (tree_of run.now.plan.now))) 0)
        result }
{
    'keys: for key in 0..run.plan.key_count() {
        one_key(printer, run, measured, key)?;
    }
    Ok(())
}

/// Writes the line of a key.
fn one_key<W: Sink>(
    printer: &mut Printer<'_, W>,
    run: &Run<'_, '_>,
    measured: &Measured<'_>,
    key: u32,
) -> Result<(), SinkFailed>
    ensures { Prints printer.old printer.new (one_key (run_of run.now) measured.now key) result }
{
    let usage = usage_at(measured.usages(), key);
    key_line(printer, run.plan, key, usage)
}

/// Writes the line of a key that was used so.
fn key_line<W: Sink>(
    printer: &mut Printer<'_, W>,
    plan: &Plan,
    key: u32,
    usage: Usage,
) -> Result<(), SinkFailed>
    ensures { Prints printer.old printer.new (key_line (tree_of plan.now) key usage) result }
{
    write_parts(
        printer,
        plan,
        &[
            Part::Plain("<tr><th scope=\"row\">"),
            Part::Key(key),
            Part::Plain("</th><td class=\"n\">"),
            Part::Number(usage.readers),
            Part::Plain("</td><td class=\"n\">"),
            Part::Number(usage.writers),
            Part::Plain("</td><td class=\"n\">"),
            Part::Seconds(usage.held),
            Part::Plain("</td><td class=\"n\">"),
            Part::Seconds(usage.waited),
            Part::Plain("</td></tr>\n"),
        ],
    )
}

/// Writes the longest chain, and nothing where there is none.
fn chain<W: Sink>(
    printer: &mut Printer<'_, W>,
    plan: &Plan,
    chain: Option<Chain>,
) -> Result<(), SinkFailed>
    ensures { Prints printer.old printer.new (chain_text (tree_of plan.now) chain) result }
{
    match chain {
        Some(chain) => chain_line(printer, plan, chain),
        None => Ok(()),
    }
}

/// Writes a chain.
fn chain_line<W: Sink>(
    printer: &mut Printer<'_, W>,
    plan: &Plan,
    chain: Chain,
) -> Result<(), SinkFailed>
    ensures { Prints printer.old printer.new (chain_line (tree_of plan.now) chain) result }
{
    write_parts(
        printer,
        plan,
        &[
            Part::Plain("<p>longest chain "),
            Part::Seconds(chain.time),
            Part::Plain(": "),
            Part::Chain(chain.link),
            Part::Plain(": "),
            Part::Link(chain.first),
            Part::Next(chain.second),
            Part::Next(chain.third),
            Part::Plain(chain_end(chain.more)),
        ],
    )
}

/// How the line of a chain ends, which may have more nodes.
fn chain_end(more: bool) -> &'static str
    ensures { result.now ≡ chain_end more }
{
    if more { ", ..</p>\n" } else { "</p>\n" }
}

/// Writes the lines of the slowest.
fn slowest<W: Sink>(
    printer: &mut Printer<'_, W>,
    plan: &Plan,
    slowest: &[Timed],
) -> Result<(), SinkFailed>
    ensures { Prints printer.old printer.new
        (flat_map (slow_line (tree_of plan.now)) slowest.now) result }
{
    for timed in slowest {
        slow_line(printer, plan, *timed)?;
    }
    Ok(())
}

/// Writes the line of one of the slowest.
fn slow_line<W: Sink>(
    printer: &mut Printer<'_, W>,
    plan: &Plan,
    timed: Timed,
) -> Result<(), SinkFailed>
    ensures { Prints printer.old printer.new (slow_line (tree_of plan.now) timed) result }
{
    write_parts(
        printer,
        plan,
        &[
            Part::Plain("<tr><td>"),
            Part::Link(timed.node),
            Part::Plain("</td><td class=\"n\">"),
            Part::Micros(timed.micros),
            Part::Plain("</td></tr>\n"),
        ],
    )
}
