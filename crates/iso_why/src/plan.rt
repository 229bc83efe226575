//! The plan as text, with reasons below each node.
ghost use Rattle.std.specs.Prelude.{◌≡◌, ◌<◌, ◌-◌, length};
ghost use Rattle.iso_placed_plan.specs.PlacedPlan.{each_node};
ghost use Rattle.iso_plan.specs.RowView.{tree_of};
ghost use Rattle.iso_plan.specs.KeptNodes.{texts_of};
ghost use Rattle.iso_tap.specs.Printers.{Prints, Writes};
ghost use Rattle.iso_why.specs.Reach.{IsReach};
ghost use Rattle.iso_why.specs.PlanWhy.{node_why, plan_why, test_why, tests_why};

use crate::lines::{lock_lines, mode_line};
use iso_placed_plan::plan::line;
use iso_places::site::Sites;
use iso_plan::plan::Plan;
use iso_tap::fault::TapFault;
use iso_tap::printer::{Piece, Printer};
use iso_tap::sink::{Sink, SinkFailed};

/// Writes a plan as `iso_placed_plan::plan::write_placed_plan` does, and below the line of each
/// node, indented, `mode: WHY` and for each of its locks, in their order, `r:KEY from NODES` or
/// `w:KEY from NODES`. WHY is `parallel execution is off`, `forced by w:KEY of PATH`, `marked`,
/// `marked on PATH`, `by mode.classes.default` or `by mode.default`, the first that holds. NODES
/// are the paths of those at or under the node whose effective marks declare the key in that
/// access, with commas between them; of the global key `every top-level class`, or `isolated` and
/// the paths of the isolated classes. `reach` is what `reach` answers for the plan. Takes no
/// memory.
///
/// The sink is asked again where it takes only some bytes, and no more once it has failed.
pub fn write_plan_why<W: Sink>(
    plan: &Plan,
    reach: &[u32],
    workers: u32,
    sites: &Sites,
    names: &[&str],
    sink: &mut W,
) -> Result<(), TapFault>
    requires { IsReach (tree_of plan.now) reach.now }
    ensures { Writes (W.account sink.old) (W.account sink.new)
        (plan_why (tree_of plan.now) plan.now.settings workers sites.now
        (texts_of names.now)) result }
{
    let mut printer = Printer::new(sink);
    match plan_why(&mut printer, plan, reach, workers, sites, names) {
        Ok(()) => Ok(()),
        Err(_) => Err(TapFault {
            written: printer.written(),
        }),
    }
}

/// Writes of a plan the lines of its tests alone, as `write_plan_why` has them. Takes no memory.
///
/// The sink is asked again where it takes only some bytes, and no more once it has failed.
pub fn write_tests_why<W: Sink>(
    plan: &Plan,
    reach: &[u32],
    sites: &Sites,
    names: &[&str],
    sink: &mut W,
) -> Result<(), TapFault>
    requires { IsReach (tree_of plan.now) reach.now }
    ensures { Writes (W.account sink.old) (W.account sink.new)
        (tests_why (tree_of plan.now) plan.now.settings sites.now (texts_of names.now)) result }
{
    let mut printer = Printer::new(sink);
    match tests_why(&mut printer, plan, reach, sites, names) {
        Ok(()) => Ok(()),
        Err(_) => Err(TapFault {
            written: printer.written(),
        }),
    }
}

/// Writes a plan with reasons.
fn plan_why<W: Sink>(
    printer: &mut Printer<'_, W>,
    plan: &Plan,
    reach: &[u32],
    workers: u32,
    sites: &Sites,
    names: &[&str],
) -> Result<(), SinkFailed>
    requires { IsReach (tree_of plan.now) reach.now }
    ensures { Prints printer.old printer.new
        (plan_why (tree_of plan.now) plan.now.settings workers sites.now
        (texts_of names.now)) result }
{
    printer.pieces(&[
        Piece::Plain(b"workers "),
        Piece::Number(u64::from(workers)),
        Piece::Plain(b"\n"),
    ])?;
    nodes_why(printer, plan, reach, sites, names)
}

/// Writes the lines of each node but the root.
fn nodes_why<W: Sink>(
    printer: &mut Printer<'_, W>,
    plan: &Plan,
    reach: &[u32],
    sites: &Sites,
    names: &[&str],
) -> Result<(), SinkFailed>
    requires { IsReach (tree_of plan.now) reach.now }
    ensures { Prints printer.old printer.new
        (each_node (node_why (tree_of plan.now) plan.now.settings sites.now (texts_of names.now))
        (length plan.now.rows - 1) 1) result }
{
    'nodes: for node in 1..plan.len() {
        node_why(printer, plan, reach, sites, names, node)?;
    }
    Ok(())
}

/// Writes the lines of tests.
fn tests_why<W: Sink>(
    printer: &mut Printer<'_, W>,
    plan: &Plan,
    reach: &[u32],
    sites: &Sites,
    names: &[&str],
) -> Result<(), SinkFailed>
    requires { IsReach (tree_of plan.now) reach.now }
    ensures { Prints printer.old printer.new
        (tests_why (tree_of plan.now) plan.now.settings sites.now (texts_of names.now)) result }
{
    'nodes: for node in 1..plan.len() {
        test_why(printer, plan, reach, sites, names, node)?;
    }
    Ok(())
}

/// Writes the lines of a node that is a test.
fn test_why<W: Sink>(
    printer: &mut Printer<'_, W>,
    plan: &Plan,
    reach: &[u32],
    sites: &Sites,
    names: &[&str],
    node: u32,
) -> Result<(), SinkFailed>
    requires reach { IsReach (tree_of plan.now) reach.now }
    requires above { 0 < node }
    requires within { node < length plan.now.rows }
    ensures { Prints printer.old printer.new
        (test_why (tree_of plan.now) plan.now.settings sites.now (texts_of names.now) node) result }
{
    if plan.is_test(node) {
        node_why(printer, plan, reach, sites, names, node)?;
    }
    Ok(())
}

/// Writes the lines of a node.
fn node_why<W: Sink>(
    printer: &mut Printer<'_, W>,
    plan: &Plan,
    reach: &[u32],
    sites: &Sites,
    names: &[&str],
    node: u32,
) -> Result<(), SinkFailed>
    requires reach { IsReach (tree_of plan.now) reach.now }
    requires above { 0 < node }
    requires within { node < length plan.now.rows }
    ensures { Prints printer.old printer.new
        (node_why (tree_of plan.now) plan.now.settings sites.now (texts_of names.now) node) result }
{
    line(printer, plan, sites, names, node)?;
    mode_line(printer, plan, node)?;
    lock_lines(printer, plan, reach, node)
}
