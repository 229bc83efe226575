//! The plan as text, with a place behind each node.
ghost use Rattle.std.specs.Prelude.{◌≡◌, ◌<◌, ◌-◌, length};
ghost use Rattle.iso_placed_plan.specs.PlacedPlan.{each_node, placed_line, placed_plan_text, placed_test_line, placed_tests_text};
ghost use Rattle.iso_plan.specs.RowView.{tree_of};
ghost use Rattle.iso_plan.specs.KeptNodes.{texts_of};
ghost use Rattle.iso_tap.specs.Printers.{Prints, Writes};

use crate::place::place_field;
use iso_places::site::Sites;
use iso_plan::plan::Plan;
use iso_tap::fault::TapFault;
use iso_tap::printer::{Piece, Printer};
use iso_tap::sink::{Sink, SinkFailed};

/// Writes a plan as `iso_tap::plan::write_plan` does, with the place of each node as a last field
/// of its line: `FILE:LINE:COLUMN`, of the first byte of its name. FILE is the script's name by its
/// number, with control characters escaped, and `stdin` where it has none. A node without a site
/// has no such field. Takes no memory.
///
/// The sink is asked again where it takes only some bytes, and no more once it has failed.
pub fn write_placed_plan<W: Sink>(
    plan: &Plan,
    workers: u32,
    sites: &Sites,
    names: &[&str],
    sink: &mut W,
) -> Result<(), TapFault>
    ensures { Writes (W.account sink.old) (W.account sink.new)
        (placed_plan_text (tree_of plan.now) plan.now.settings workers sites.now
        (texts_of names.now)) result }
{
    let mut printer = Printer::new(sink);
    match placed_plan(&mut printer, plan, workers, sites, names) {
        Ok(()) => Ok(()),
        Err(_) => Err(TapFault {
            written: printer.written(),
        }),
    }
}

/// Writes of a plan the lines of its tests alone, as `write_placed_plan` has them. Takes no memory.
///
/// The sink is asked again where it takes only some bytes, and no more once it has failed.
pub fn write_placed_tests<W: Sink>(
    plan: &Plan,
    sites: &Sites,
    names: &[&str],
    sink: &mut W,
) -> Result<(), TapFault>
    ensures { Writes (W.account sink.old) (W.account sink.new)
        (placed_tests_text (tree_of plan.now) plan.now.settings sites.now
        (texts_of names.now)) result }
{
    let mut printer = Printer::new(sink);
    match tests(&mut printer, plan, sites, names) {
        Ok(()) => Ok(()),
        Err(_) => Err(TapFault {
            written: printer.written(),
        }),
    }
}

/// Writes a plan.
fn placed_plan<W: Sink>(
    printer: &mut Printer<'_, W>,
    plan: &Plan,
    workers: u32,
    sites: &Sites,
    names: &[&str],
) -> Result<(), SinkFailed>
    ensures { Prints printer.old printer.new
        (placed_plan_text (tree_of plan.now) plan.now.settings workers sites.now
        (texts_of names.now)) result }
{
    printer.pieces(&[
        Piece::Plain(b"workers "),
        Piece::Number(u64::from(workers)),
        Piece::Plain(b"\n"),
    ])?;
    nodes(printer, plan, sites, names)
}

/// Writes the line of each node but the root.
fn nodes<W: Sink>(
    printer: &mut Printer<'_, W>,
    plan: &Plan,
    sites: &Sites,
    names: &[&str],
) -> Result<(), SinkFailed>
    ensures { Prints printer.old printer.new
        (each_node (placed_line (tree_of plan.now) plan.now.settings sites.now (texts_of names.now))
        (length plan.now.rows - 1) 1) result }
{
    'nodes: for node in 1..plan.len() {
        line(printer, plan, sites, names, node)?;
    }
    Ok(())
}

/// Writes the lines of tests.
fn tests<W: Sink>(
    printer: &mut Printer<'_, W>,
    plan: &Plan,
    sites: &Sites,
    names: &[&str],
) -> Result<(), SinkFailed>
    ensures { Prints printer.old printer.new
        (placed_tests_text (tree_of plan.now) plan.now.settings sites.now
        (texts_of names.now)) result }
{
    'nodes: for node in 1..plan.len() {
        test(printer, plan, sites, names, node)?;
    }
    Ok(())
}

/// Writes the line of a node that is a test.
fn test<W: Sink>(
    printer: &mut Printer<'_, W>,
    plan: &Plan,
    sites: &Sites,
    names: &[&str],
    node: u32,
) -> Result<(), SinkFailed>
    requires above { 0 < node }
    requires within { node < length plan.now.rows }
    ensures { Prints printer.old printer.new
        (placed_test_line (tree_of plan.now) plan.now.settings sites.now
        (texts_of names.now) node) result }
{
    if plan.is_test(node) {
        line(printer, plan, sites, names, node)?;
    }
    Ok(())
}

/// Writes the line of a node, as `write_placed_plan` has it.
pub fn line<W: Sink>(
    printer: &mut Printer<'_, W>,
    plan: &Plan,
    sites: &Sites,
    names: &[&str],
    node: u32,
) -> Result<(), SinkFailed>
    requires above { 0 < node }
    requires within { node < length plan.now.rows }
    ensures { Prints printer.old printer.new
        (placed_line (tree_of plan.now) plan.now.settings sites.now
        (texts_of names.now) node) result }
{
    printer.node_fields(plan, node)?;
    place_field(printer, sites, names, node)?;
    printer.bytes(b"\n")
}
