//! What is told of a node.
ghost use Rattle.std.specs.Prelude.{◌≡◌, ◌<◌, ◌==◌, length, map};
ghost use Rattle.iso_html.specs.Commands.{again_text, commands_of};
ghost use Rattle.iso_html.specs.Nodes.{blocks_text, entry_text, message_text, name_text, open_word, place_text, printed_text, reason_text, time_text, wrong_head, wrong_text};
ghost use Rattle.iso_html.specs.Quotes.{line_of};
ghost use Rattle.iso_junit.specs.Runs.{placed_of};
ghost use Rattle.iso_lifecycle.specs.ResultViews.{outcome_of_view, verdict_of_view};
ghost use Rattle.iso_plan.specs.PathTexts.{path_text};
ghost use Rattle.iso_plan.specs.RowView.{tree_of};
ghost use Rattle.iso_tap.specs.Printers.{Prints};

use crate::again::{Commands, again};
use crate::quote::{Line, quote};
use crate::sign::{sign, word_for};
use iso_junit::part::Part;
use iso_junit::placed::Placed;
use iso_junit::seconds::six_digits;
use iso_junit::writing::{all_lines, parts, parts_with_path};
use iso_lifecycle::view::{View, ViewVerdict};
use iso_plan::plan::Plan;
use iso_tap::printer::{Piece, Printer};
use iso_tap::sink::{Sink, SinkFailed};

/// Writes the line of a node, without its time: what it came to, and its title.
pub(crate) fn name<W: Sink>(
    printer: &mut Printer<'_, W>,
    ok: bool,
    verdict: ViewVerdict<'_>,
    title: &str,
    node: u32,
) -> Result<(), SinkFailed>
    ensures { Prints printer.old printer.new
        (name_text ok (verdict_of_view verdict.entry) title.now node) result }
{
    parts(
        printer,
        &[
            Part::Plain("<li id=\"n"),
            Part::Number(node),
            Part::Plain(open_word(ok)),
            Part::Plain(sign(ok, verdict)),
            Part::Plain(" "),
            Part::Text(title),
        ],
    )
}

/// How the line of a node begins: a node is shown open where it isn't ok.
fn open_word(ok: bool) -> &'static str
    ensures { result.now ≡ open_word ok }
{
    if ok {
        "\"><details><summary>"
    } else {
        "\"><details open><summary>"
    }
}

/// Writes a time in seconds, and nothing where none was measured.
pub(crate) fn seconds<W: Sink>(
    printer: &mut Printer<'_, W>,
    time: Option<u64>,
) -> Result<(), SinkFailed>
    ensures { Prints printer.old printer.new (time_text time) result }
{
    match time {
        None => Ok(()),
        Some(time) => printer.pieces(&[
            Piece::Plain(b" <small>"),
            Piece::Number(time / 1_000_000),
            Piece::Plain(b"."),
            Piece::Plain(&six_digits(time % 1_000_000)),
            Piece::Plain(b" s</small>"),
        ]),
    }
}

/// Writes the path of a node, and where it stands.
pub(crate) fn stands<W: Sink>(
    printer: &mut Printer<'_, W>,
    plan: &Plan,
    node: u32,
    at: &Placed<'_>,
) -> Result<(), SinkFailed>
    requires above { 0 < node }
    requires within { node < length plan.now.rows }
    ensures { Prints printer.old printer.new
        (place_text (path_text (tree_of plan.now) node) (placed_of at.now)) result }
{
    parts_with_path(
        printer,
        &[Part::Plain("</summary>\n<p><code>")],
        plan,
        node,
        &[
            Part::Plain("</code> <code><bdi>"),
            Part::File(at.file),
            Part::Plain("</bdi>:"),
            Part::Number(at.line),
            Part::Plain("</code></p>\n"),
        ],
    )
}

/// Writes why a node didn't pass, and nothing where it did.
pub(crate) fn message<W: Sink>(
    printer: &mut Printer<'_, W>,
    verdict: ViewVerdict<'_>,
) -> Result<(), SinkFailed>
    ensures { Prints printer.old printer.new (message_text (verdict_of_view verdict.entry)) result }
{
    match verdict {
        ViewVerdict::Pass => Ok(()),
        ViewVerdict::Fail(note) => reason(printer, note.message.as_str()),
        ViewVerdict::Fault(_, note) => reason(printer, note.message.as_str()),
        ViewVerdict::Skipped(note) => reason(printer, note.message.as_str()),
        ViewVerdict::Blocked(note) => reason(printer, note.message.as_str()),
    }
}

/// Writes a message.
fn reason<W: Sink>(printer: &mut Printer<'_, W>, message: &str) -> Result<(), SinkFailed>
    ensures { Prints printer.old printer.new (reason_text message.now) result }
{
    parts(
        printer,
        &[
            Part::Plain("<p>"),
            Part::Text(message),
            Part::Plain("</p>\n"),
        ],
    )
}

/// Writes what a node printed, and nothing where it printed nothing.
pub(crate) fn printed<W: Sink>(
    printer: &mut Printer<'_, W>,
    view: View<'_>,
) -> Result<(), SinkFailed>
    ensures { Prints printer.old printer.new
        (printed_text (outcome_of_view view.entry).output) result }
{
    if printed_nothing(view) {
        return Ok(());
    }
    printer.bytes(b"<pre>\n")?;
    all_lines(printer, view.lines)?;
    all_lines(printer, view.more)?;
    printer.bytes(b"</pre>\n")
}

/// Whether nothing was printed.
fn printed_nothing(view: View<'_>) -> bool
    ensures { result ≡ (length (outcome_of_view view.entry).output == 0) }
{
    view.lines.is_empty() && view.more.is_empty()
}

/// Writes what went wrong in a node, and nothing where it is no fail and no fault.
pub(crate) fn wrong<W: Sink>(
    printer: &mut Printer<'_, W>,
    plan: &Plan,
    node: u32,
    at: &Placed<'_>,
    lines: &[Line<'_>],
    blocked: u32,
    view: View<'_>,
    commands: &Commands<'_>,
) -> Result<(), SinkFailed>
    requires above { 0 < node }
    requires within { node < length plan.now.rows }
    ensures { let outcome = outcome_of_view view.entry in
        Prints printer.old printer.new
        (wrong_text outcome.verdict (path_text (tree_of plan.now) node) node (placed_of at.now)
        (map line_of lines.now) blocked outcome.output
        (again_text (commands_of commands.now) (tree_of plan.now) node (placed_of at.now))) result }
{
    match view.verdict {
        ViewVerdict::Pass => Ok(()),
        ViewVerdict::Fail(note) => entry(
            printer,
            ViewVerdict::Fail(note),
            plan,
            node,
            at,
            note.message.as_str(),
            lines,
            blocked,
            view,
            commands,
        ),
        ViewVerdict::Fault(kind, note) => entry(
            printer,
            ViewVerdict::Fault(kind, note),
            plan,
            node,
            at,
            note.message.as_str(),
            lines,
            blocked,
            view,
            commands,
        ),
        ViewVerdict::Skipped(_) => Ok(()),
        ViewVerdict::Blocked(_) => Ok(()),
    }
}

/// Writes what went wrong in a node, the lines of the script there, how many tests it blocks, what
/// it printed, and the command that runs it again.
fn entry<'x, W: Sink>(
    printer: &mut Printer<'_, W>,
    verdict: ViewVerdict<'_>,
    plan: &Plan,
    node: u32,
    at: &Placed<'x>,
    message: &'x str,
    lines: &[Line<'_>],
    blocked: u32,
    view: View<'_>,
    commands: &Commands<'_>,
) -> Result<(), SinkFailed>
    requires above { 0 < node }
    requires within { node < length plan.now.rows }
    ensures { Prints printer.old printer.new
        (entry_text (verdict_of_view verdict.entry) (path_text (tree_of plan.now) node) message.now
        node (placed_of at.now) (map line_of lines.now) blocked
        (outcome_of_view view.entry).output
        (again_text (commands_of commands.now) (tree_of plan.now) node (placed_of at.now))) result }
{
    wrong_head(printer, sign(false, verdict), plan, node, at, message)?;
    quote(printer, at.ended, lines)?;
    blocks(printer, blocked)?;
    printed(printer, view)?;
    again(printer, plan, node, at, commands)?;
    printer.bytes(b"</article>\n")
}

/// Writes how many tests a node blocks, and nothing where it blocks none.
fn blocks<W: Sink>(printer: &mut Printer<'_, W>, count: u32) -> Result<(), SinkFailed>
    ensures { Prints printer.old printer.new (blocks_text count) result }
{
    if count == 0 {
        return Ok(());
    }
    parts(
        printer,
        &[
            Part::Plain("<p>blocks "),
            Part::Number(count),
            Part::Plain(word_for(count, " test</p>\n", " tests</p>\n")),
        ],
    )
}

/// Writes the beginning of what went wrong in a node with this sign.
fn wrong_head<'x, W: Sink>(
    printer: &mut Printer<'_, W>,
    sign: &'x str,
    plan: &Plan,
    node: u32,
    at: &Placed<'x>,
    message: &'x str,
) -> Result<(), SinkFailed>
    requires above { 0 < node }
    requires within { node < length plan.now.rows }
    ensures { Prints printer.old printer.new
        (wrong_head sign.now (path_text (tree_of plan.now) node) message.now node
        (placed_of at.now)) result }
{
    parts_with_path(
        printer,
        &[
            Part::Plain("<article>\n<h3>"),
            Part::Plain(sign),
            Part::Plain(" <a href=\"#n"),
            Part::Number(node),
            Part::Plain("\">"),
        ],
        plan,
        node,
        &[
            Part::Plain("</a></h3>\n<p><code><bdi>"),
            Part::File(at.file),
            Part::Plain("</bdi>:"),
            Part::Number(at.ended),
            Part::Plain("</code>: "),
            Part::Text(message),
            Part::Plain("</p>\n"),
        ],
    )
}
