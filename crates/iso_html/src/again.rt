//! The commands that run nodes again.
ghost use Rattle.std.specs.Prelude.{◌≡◌, ◌++◌};
ghost use Rattle.iso_html.specs.Commands.{again_text, command_text, commands_of, script_at, script_text};
ghost use Rattle.iso_junit.specs.Runs.{placed_of};
ghost use Rattle.iso_plan.specs.RowView.{tree_of};
ghost use Rattle.iso_summary.specs.Entries.{can_be_told};
ghost use Rattle.iso_summary.specs.Views.{again_of};
ghost use Rattle.iso_tap.specs.Printers.{Prints};

use crate::part::Part;
use crate::writing::write_parts;
use iso_junit::placed::Placed;
use iso_plan::plan::Plan;
use iso_summary::again::Again;
use iso_summary::unseen::{given_has_unseen, has_unseen};
use iso_tap::printer::Printer;
use iso_tap::sink::{Sink, SinkFailed};

/// What is told again of the command that ran.
#[derive(Clone, Copy)]
pub struct Commands<'a> {
    pub again: Again<'a>,
    /// Whether the scripts were named: standard input wasn't.
    pub named: bool,
}

/// Writes the command that runs a node again, and nothing where none can be told.
pub(crate) fn again<W: Sink>(
    printer: &mut Printer<'_, W>,
    plan: &Plan,
    node: u32,
    at: &Placed<'_>,
    commands: &Commands<'_>,
) -> Result<(), SinkFailed>
    ensures { Prints printer.old printer.new
        (again_text (commands_of commands.now) (tree_of plan.now) node (placed_of at.now)) result }
{
    if can_be_told(at, commands) {
        return told(printer, plan, node, at.file, &commands.again);
    }
    Ok(())
}

/// Writes the command.
fn told<W: Sink>(
    printer: &mut Printer<'_, W>,
    plan: &Plan,
    node: u32,
    file: &str,
    again: &Again<'_>,
) -> Result<(), SinkFailed>
    ensures { Prints printer.old printer.new
        (command_text (again_of again.now) (tree_of plan.now) node ++ script_text file.now) result }
{
    command(printer, plan, node, again)?;
    script(printer, plan, file)
}

/// Writes the command up to its script.
fn command<W: Sink>(
    printer: &mut Printer<'_, W>,
    plan: &Plan,
    node: u32,
    again: &Again<'_>,
) -> Result<(), SinkFailed>
    ensures { Prints printer.old printer.new
        (command_text (again_of again.now) (tree_of plan.now) node) result }
{
    write_parts(
        printer,
        plan,
        &[
            Part::Plain("<p>again: <code><bdi>jtap run"),
            Part::FileOption(" --settings ", again.settings),
            Part::FileOption(" --world ", again.world),
            Part::NumberOption(" --processors ", again.processors),
            Part::Plain(" --only "),
            Part::Node(node),
            Part::Plain(" "),
        ],
    )
}

/// Writes the script of a command.
fn script<W: Sink>(printer: &mut Printer<'_, W>, plan: &Plan, file: &str) -> Result<(), SinkFailed>
    ensures { Prints printer.old printer.new (script_text file.now) result }
{
    write_parts(
        printer,
        plan,
        &[Part::File(file), Part::Plain("</bdi></code></p>\n")],
    )
}

/// Whether the command can be told: the script is a file, and no word has a character that no
/// reader sees.
fn can_be_told(at: &Placed<'_>, commands: &Commands<'_>) -> bool
    ensures { result ≡ can_be_told (again_of commands.now.again)
        (script_at commands.now.named (placed_of at.now)) }
{
    commands.named
        && !has_unseen(at.file)
        && !given_has_unseen(commands.again.settings)
        && !given_has_unseen(commands.again.world)
}
