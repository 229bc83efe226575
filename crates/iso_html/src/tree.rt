//! The tree of classes and tests.
ghost use Rattle.std.specs.Prelude.{◌≡◌, ◌<◌, length};
ghost use Rattle.iso_html.specs.Trees.{inside_text, list_text, node_text, opening_text};
ghost use Rattle.iso_junit.specs.Runs.{run_of};
ghost use Rattle.iso_lifecycle.specs.ResultViews.{AreComplete};
ghost use Rattle.iso_plan.specs.Paths.{children};
ghost use Rattle.iso_plan.specs.RowView.{tree_of};
ghost use Rattle.iso_tap.specs.Printers.{Prints};

use crate::mode::mode;
use crate::node::{message, name, printed, seconds, stands};
use iso_junit::run::Run;
use iso_plan::laws;
use iso_tap::ok::is_ok;
use iso_tap::printer::Printer;
use iso_tap::sink::{Sink, SinkFailed};

/// Writes the list of a node's children.
#[cycle(lists)]
pub(crate) fn list<W: Sink>(
    printer: &mut Printer<'_, W>,
    run: &Run<'_, '_>,
    node: u32,
) -> Result<(), SinkFailed>
    requires complete { AreComplete run.now.results.now }
    requires within { node < length run.now.plan.now.rows }
    ensures { Prints printer.old printer.new
        (list_text (node_text (run_of run.now) run.now.plan.now.settings)
        (children (tree_of run.now.plan.now) node)) result }
{
    laws::nodes_are_a_tree(run.plan);
    printer.bytes(b"<ul>\n")?;
    'children: for child in run.plan.children(node) {
        tree_node(printer, run, *child)?;
    }
    printer.bytes(b"</ul>\n")
}

/// Writes a node with its descendants.
#[cycle(lists)]
fn tree_node<W: Sink>(
    printer: &mut Printer<'_, W>,
    run: &Run<'_, '_>,
    node: u32,
) -> Result<(), SinkFailed>
    requires complete { AreComplete run.now.results.now }
    requires above { 0 < node }
    requires within { node < length run.now.plan.now.rows }
    ensures { Prints printer.old printer.new
        (node_text (run_of run.now) run.now.plan.now.settings node) result }
{
    laws::nodes_are_a_tree(run.plan);
    opening(printer, run, node)?;
    inside(printer, run, node)?;
    printer.bytes(b"</details></li>\n")
}

/// Writes the list of a class's children, and nothing for a test.
#[cycle(lists)]
fn inside<W: Sink>(
    printer: &mut Printer<'_, W>,
    run: &Run<'_, '_>,
    node: u32,
) -> Result<(), SinkFailed>
    requires complete { AreComplete run.now.results.now }
    requires above { 0 < node }
    requires within { node < length run.now.plan.now.rows }
    ensures { Prints printer.old printer.new
        (inside_text (run_of run.now) (node_text (run_of run.now) run.now.plan.now.settings) node)
        result }
{
    if run.plan.is_test(node) {
        return Ok(());
    }
    list(printer, run, node)
}

/// Writes a node up to its children.
fn opening<W: Sink>(
    printer: &mut Printer<'_, W>,
    run: &Run<'_, '_>,
    node: u32,
) -> Result<(), SinkFailed>
    requires complete { AreComplete run.now.results.now }
    requires above { 0 < node }
    requires within { node < length run.now.plan.now.rows }
    ensures { Prints printer.old printer.new
        (opening_text (run_of run.now) run.now.plan.now.settings node) result }
{
    let view = run.view(node);
    let at = run.place(node);
    let ok = is_ok(run.plan, run.results, node);
    name(printer, ok, view.verdict, run.plan.title(node), node)?;
    seconds(printer, run.time(node))?;
    stands(printer, run.plan, node, &at)?;
    mode(printer, run.plan, node)?;
    message(printer, view.verdict)?;
    printed(printer, view)
}
