//! Paths of nodes.
ghost use Rattle.std.specs.Prelude.{◌≡◌, ◌<◌, length};
ghost use Rattle.iso_junit.specs.Escapes.{escaped};
ghost use Rattle.iso_plan.specs.PathTexts.{path_text};
ghost use Rattle.iso_plan.specs.RowView.{tree_of};
ghost use Rattle.iso_tap.specs.Printers.{Prints};

use crate::escape::escaped;
use iso_plan::laws;
use iso_plan::plan::Plan;
use iso_tap::printer::Printer;
use iso_tap::sink::{Sink, SinkFailed};

/// Writes a node's path. It calls itself once for each enclosing class of the node.
#[cycle(path)]
pub fn path<W: Sink>(printer: &mut Printer<'_, W>, plan: &Plan, node: u32) -> Result<(), SinkFailed>
    requires above { 0 < node }
    requires within { node < length plan.now.rows }
    ensures { Prints printer.old printer.new (escaped (path_text (tree_of plan.now) node)) result }
{
    laws::parents_come_first(plan);
    laws::paths_lead_up(plan);
    let name = plan.name(node).as_bytes();
    match plan.parent(node) {
        Some(class) if class > 0 => {
            path(printer, plan, class)?;
            printer.bytes(b".")?;
            escaped(printer, name)
        }
        _ => escaped(printer, name),
    }
}
