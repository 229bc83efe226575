//! The command that runs a node again.
ghost use Rattle.std.specs.Prelude.{◌≡◌, ◌<◌, length};
ghost use Rattle.iso_plan.specs.PathTexts.{path_text};
ghost use Rattle.iso_plan.specs.RowView.{tree_of};
ghost use Rattle.iso_summary.specs.Entries.{again_line, can_be_told};
ghost use Rattle.iso_summary.specs.Views.{again_of, located_of};
ghost use Rattle.iso_tap.specs.Printers.{Prints};

use crate::line::line_with_path;
use crate::located::Located;
use crate::part::Part;
use crate::unseen::{given_has_unseen, has_unseen};
use iso_plan::plan::Plan;
use iso_tap::printer::Printer;
use iso_tap::sink::{Sink, SinkFailed};

/// The words of a command that another one needs for the same results.
#[derive(Clone, Copy)]
pub struct Again<'a> {
    pub settings: Option<&'a str>,
    pub world: Option<&'a str>,
    pub processors: Option<u32>,
}

/// Writes the command that runs a node again, and nothing where none can be told.
pub(crate) fn command<W: Sink>(
    printer: &mut Printer<'_, W>,
    plan: &Plan,
    node: u32,
    at: &Located<'_>,
    again: &Again<'_>,
) -> Result<(), SinkFailed>
    requires above { 0 < node }
    requires within { node < length plan.now.rows }
    ensures { Prints printer.old printer.new
        (again_line (again_of again.now) (located_of at.now) (path_text (tree_of plan.now) node))
        result }
{
    if !can_be_told(at, again) {
        return Ok(());
    }
    line_with_path(
        printer,
        &[
            Part::Plain("  again: jtap run"),
            Part::FileOption(" --settings ", again.settings),
            Part::FileOption(" --world ", again.world),
            Part::NumberOption(" --processors ", again.processors),
            Part::Plain(" --only "),
        ],
        plan,
        node,
        &[Part::Plain(" "), Part::File(at.file)],
    )
}

/// Whether the command can be told: the script is a file, and no word has a character that no
/// reader sees.
fn can_be_told(at: &Located<'_>, again: &Again<'_>) -> bool
    ensures { result ≡ can_be_told (again_of again.now) (located_of at.now) }
{
    at.named
        && !has_unseen(at.file)
        && !given_has_unseen(again.settings)
        && !given_has_unseen(again.world)
}
