//! What a run came to, as a page to look at.
ghost use Rattle.std.specs.Prelude.{◌≡◌, ◌<◌, ◌&&◌, ◌==◌, [], cond, length, map};
ghost use Rattle.std.specs.Option.{option_map};
ghost use Rattle.iso_failures.specs.Counting.{counts};
ghost use Rattle.iso_failures.specs.Failures.{is_failure};
ghost use Rattle.iso_html.specs.Commands.{commands_of};
ghost use Rattle.iso_html.specs.Pages.{body_text, failure_text, page_text, tree_heading, wrong_heading, wrongs_text};
ghost use Rattle.iso_html.specs.Quotes.{excerpt_of};
ghost use Rattle.iso_junit.specs.Runs.{placed_of, run_of};
ghost use Rattle.iso_lifecycle.specs.ResultViews.{AreComplete, outcome_in};
ghost use Rattle.iso_plan.specs.RowView.{tree_of};
ghost use Rattle.iso_tap.specs.Printers.{Prints, Writes};

use crate::again::Commands;
use crate::head::head;
use crate::measured::Measured;
use crate::node::wrong;
use crate::quote::{Line, quoted};
use crate::section::sections;
use crate::tree::list;
use iso_failures::blocked::blocked_by;
use iso_failures::counts::{Counts, count};
use iso_junit::part::Part;
use iso_junit::placed::Placed;
use iso_junit::run::Run;
use iso_junit::writing::parts;
use iso_lifecycle::results::Results;
use iso_plan::laws;
use iso_plan::plan::Plan;
use iso_tap::fault::TapFault;
use iso_tap::ok::all_ok;
use iso_tap::printer::Printer;
use iso_tap::sink::{Sink, SinkFailed};

/// Writes results as a page of HTML: how many tests came to what, what went wrong with its place,
/// its message and what was printed, and the tree of classes and tests, in which those are open
/// that aren't ok. It needs no script, fetches nothing, and says so in its policy. All nodes but
/// the root must have results. Each node, the root too, has its place at its number. So have times,
/// in microseconds: what isn't there wasn't measured. So has each node the lines that are shown of
/// its script where something went wrong in it: they can be none. The commands that run again what
/// went wrong are told where they can be, and what was measured where it was. Takes no memory.
///
/// The sink is asked again where it takes only some bytes, and no more once it has failed.
pub fn write_html<W: Sink>(
    plan: &Plan,
    results: &Results<'_>,
    places: &[Placed<'_>],
    times: &[Option<u64>],
    quotes: &[Vec<Line<'_>>],
    commands: &Commands<'_>,
    measured: Option<&Measured<'_>>,
    sink: &mut W,
) -> Result<(), TapFault>
    requires plan { results.now.plan ≡ plan.now }
    requires complete { AreComplete results.now }
    requires places { length places.now ≡ length plan.now.rows }
    requires quotes { length quotes.now ≡ length plan.now.rows }
    ensures { Writes (W.account sink.old) (W.account sink.new) (page_text (record {
      tree = tree_of plan.now;
      outcome = outcome_in results.now;
      places = map placed_of places.now;
      times = times.now;
    }) plan.now.settings (map excerpt_of quotes.now) (commands_of commands.now)
        (option_map (λ m. m.now) measured.entry)) result }
{
    let run = Run {
        plan,
        results,
        places,
        times,
    };
    let mut printer = Printer::new(sink);
    match page(&mut printer, &run, quotes, commands, measured) {
        Ok(()) => Ok(()),
        Err(_) => Err(TapFault {
            written: printer.written(),
        }),
    }
}

/// Writes the page.
fn page<W: Sink>(
    printer: &mut Printer<'_, W>,
    run: &Run<'_, '_>,
    quotes: &[Vec<Line<'_>>],
    commands: &Commands<'_>,
    measured: Option<&Measured<'_>>,
) -> Result<(), SinkFailed>
    requires complete { AreComplete run.now.results.now }
    requires quotes { length quotes.now ≡ length run.now.plan.now.rows }
    ensures { Prints printer.old printer.new
        (page_text (run_of run.now) run.now.plan.now.settings (map excerpt_of quotes.now)
        (commands_of commands.now) (option_map (λ m. m.now) measured.entry)) result }
{
    let counts = count(run.plan, run.results);
    let ok = all_ok(run.plan, run.results);
    head(printer, run.plan, ok, counts, measured)?;
    body(printer, run, quotes, commands, measured, counts)
}

/// Writes what follows the beginning of the page of a run with these counts.
fn body<W: Sink>(
    printer: &mut Printer<'_, W>,
    run: &Run<'_, '_>,
    quotes: &[Vec<Line<'_>>],
    commands: &Commands<'_>,
    measured: Option<&Measured<'_>>,
    totals: Counts,
) -> Result<(), SinkFailed>
    requires complete { AreComplete run.now.results.now }
    requires quotes { length quotes.now ≡ length run.now.plan.now.rows }
    requires totals { totals ≡ counts (tree_of run.now.plan.now) (outcome_in run.now.results.now) }
    ensures { Prints printer.old printer.new
        (body_text (run_of run.now) run.now.plan.now.settings (map excerpt_of quotes.now)
        (commands_of commands.now) (option_map (λ m. m.now) measured.entry)) result }
{
    laws::nodes_are_a_tree(run.plan);
    wrong_heading(printer, totals)?;
    wrongs(printer, run, quotes, commands)?;
    tree_heading(printer)?;
    list(printer, run, 0)?;
    printer.bytes(b"</section>\n")?;
    sections(printer, run, measured)?;
    printer.bytes(b"</main>\n</body>\n</html>\n")
}

/// Writes the heading above what went wrong, and nothing where nothing did.
fn wrong_heading<W: Sink>(printer: &mut Printer<'_, W>, counts: Counts) -> Result<(), SinkFailed>
    ensures { Prints printer.old printer.new (wrong_heading counts) result }
{
    if went_well(counts) {
        return Ok(());
    }
    printer.bytes(b"<h2>What went wrong</h2>\n")
}

/// Whether nothing failed.
fn went_well(counts: Counts) -> bool
    ensures { result ≡ (counts.not_ok == 0 && counts.classes_not_ok == 0) }
{
    counts.not_ok == 0 && counts.classes_not_ok == 0
}

/// Writes what went wrong.
fn wrongs<W: Sink>(
    printer: &mut Printer<'_, W>,
    run: &Run<'_, '_>,
    quotes: &[Vec<Line<'_>>],
    commands: &Commands<'_>,
) -> Result<(), SinkFailed>
    requires complete { AreComplete run.now.results.now }
    requires quotes { length quotes.now ≡ length run.now.plan.now.rows }
    ensures { Prints printer.old printer.new
        (wrongs_text (run_of run.now) (map excerpt_of quotes.now)
        (commands_of commands.now)) result }
{
    laws::nodes_are_a_tree(run.plan);
    'nodes: for node in 1..run.plan.len() {
        failure(printer, run, quotes, commands, node)?;
    }
    Ok(())
}

/// Writes what went wrong in a node, and nothing where nothing did.
fn failure<W: Sink>(
    printer: &mut Printer<'_, W>,
    run: &Run<'_, '_>,
    quotes: &[Vec<Line<'_>>],
    commands: &Commands<'_>,
    node: u32,
) -> Result<(), SinkFailed>
    requires complete { AreComplete run.now.results.now }
    requires quotes { length quotes.now ≡ length run.now.plan.now.rows }
    requires above { 0 < node }
    requires within { node < length run.now.plan.now.rows }
    ensures { Prints printer.old printer.new
        (cond (is_failure (outcome_in run.now.results.now) node)
        (failure_text (run_of run.now) (map excerpt_of quotes.now)
        (commands_of commands.now) node) []) result }
{
    let at = run.place(node);
    let blocked = blocked_by(run.plan, run.results, node);
    let lines = quoted(quotes, node);
    wrong(
        printer,
        run.plan,
        node,
        &at,
        lines,
        blocked,
        run.view(node),
        commands,
    )
}

/// Writes the heading above the tree, and what of it is shown.
fn tree_heading<W: Sink>(printer: &mut Printer<'_, W>) -> Result<(), SinkFailed>
    ensures { Prints printer.old printer.new tree_heading result }
{
    parts(
        printer,
        &[
            Part::Plain("<section>\n<h2>Tests</h2>\n<fieldset>\n<legend>Show</legend>\n"),
            Part::Plain("<label><input type=\"radio\" name=\"show\" checked> all</label>\n"),
            Part::Plain(
                "<label><input type=\"radio\" name=\"show\" id=\"red\"> red ones</label>\n",
            ),
            Part::Plain(
                "<label><input type=\"radio\" name=\"show\" id=\"skipped\"> skipped ones</label>\n</fieldset>\n",
            ),
        ],
    )
}
