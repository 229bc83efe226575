//! Reasons for which an event is refused, a note each.
ghost use Rattle.iso_explain_plan.specs.Reasons.{busy_note, children_note, closed_note, earlier_note, earlier_top_note, ended_note, entered_note, no_body_note, no_node_note, no_node_of_note, no_worker_note, not_class_note, not_ended_note, not_first_note, not_open_note, not_owner_note, not_shutter_note, root_entered_note, root_shut_note, stopped_note};
ghost use Rattle.iso_plan.specs.RowView.{tree_of};
ghost use Rattle.iso_tap.specs.Printers.{Prints};

use crate::note::{node_note, note};
use crate::part::{NodePart, Part};
use iso_plan::plan::Plan;
use iso_tap::printer::Printer;
use iso_tap::sink::{Sink, SinkFailed};

/// Writes that memory ran out before.
pub(crate) fn stopped<W: Sink>(printer: &mut Printer<'_, W>) -> Result<(), SinkFailed>
    ensures { Prints printer.old printer.new stopped_note result }
{
    note(
        printer,
        &[Part::Plain("memory ran out in an earlier event")],
    )
}

/// Writes that a worker isn't there.
pub(crate) fn no_worker<W: Sink>(
    printer: &mut Printer<'_, W>,
    worker: u32,
) -> Result<(), SinkFailed>
    ensures { Prints printer.old printer.new (no_worker_note worker) result }
{
    note(
        printer,
        &[
            Part::Plain("there is no worker "),
            Part::Number(worker as u64),
            Part::Plain(": workers count from 0, and `jtap plan` tells how many there are"),
        ],
    )
}

/// Writes that a node isn't there.
pub(crate) fn no_node<W: Sink>(
    printer: &mut Printer<'_, W>,
    plan: &Plan,
    node: u32,
) -> Result<(), SinkFailed>
    ensures { Prints printer.old printer.new (no_node_note (tree_of plan.now) node) result }
{
    no_node_of(printer, node, plan.len().saturating_sub(1))
}

/// The same, where this is the last node.
fn no_node_of<W: Sink>(printer: &mut Printer<'_, W>, node: u32, last: u32) -> Result<(), SinkFailed>
    ensures { Prints printer.old printer.new (no_node_of_note node last) result }
{
    note(
        printer,
        &[
            Part::Plain("there is no node "),
            Part::Number(node as u64),
            Part::Plain(": classes and tests are 1 to "),
            Part::Number(last as u64),
        ],
    )
}

/// Writes that a worker has a body.
pub(crate) fn busy<W: Sink>(printer: &mut Printer<'_, W>, worker: u32) -> Result<(), SinkFailed>
    ensures { Prints printer.old printer.new (busy_note worker) result }
{
    note(
        printer,
        &[
            Part::Plain("worker "),
            Part::Number(worker as u64),
            Part::Plain(" has a body: `leave "),
            Part::Number(worker as u64),
            Part::Plain("` has to come first"),
        ],
    )
}

/// Writes that a class isn't open.
pub(crate) fn closed<W: Sink>(
    printer: &mut Printer<'_, W>,
    plan: &Plan,
    class: u32,
) -> Result<(), SinkFailed>
    ensures { Prints printer.old printer.new (closed_note (tree_of plan.now) class) result }
{
    node_note(
        printer,
        plan,
        &[
            NodePart::Of(Part::Plain("what stands in ")),
            NodePart::Node(class),
            NodePart::Of(Part::Plain(
                " is entered once its before_all was left and ended well, and before its after_all begins",
            )),
        ],
    )
}

/// Writes that the root isn't entered.
pub(crate) fn root_entered<W: Sink>(printer: &mut Printer<'_, W>) -> Result<(), SinkFailed>
    ensures { Prints printer.old printer.new root_entered_note result }
{
    note(
        printer,
        &[Part::Plain("node 0 is the root, which no worker enters")],
    )
}

/// Writes that a node was entered before.
pub(crate) fn entered<W: Sink>(
    printer: &mut Printer<'_, W>,
    plan: &Plan,
    node: u32,
) -> Result<(), SinkFailed>
    ensures { Prints printer.old printer.new (entered_note (tree_of plan.now) node) result }
{
    node_note(
        printer,
        plan,
        &[
            NodePart::Node(node),
            NodePart::Of(Part::Plain(" was entered before, and is entered once")),
        ],
    )
}

/// Writes who enters a top-level class.
pub(crate) fn not_first<W: Sink>(
    printer: &mut Printer<'_, W>,
    plan: &Plan,
    node: u32,
) -> Result<(), SinkFailed>
    ensures { Prints printer.old printer.new (not_first_note (tree_of plan.now) node) result }
{
    node_note(
        printer,
        plan,
        &[
            NodePart::Node(node),
            NodePart::Of(Part::Plain(" is same_thread at the top level: worker 0 has to enter it")),
        ],
    )
}

/// Writes who enters a node.
pub(crate) fn not_owner<W: Sink>(
    printer: &mut Printer<'_, W>,
    plan: &Plan,
    node: u32,
    class: u32,
) -> Result<(), SinkFailed>
    ensures { Prints printer.old printer.new (not_owner_note (tree_of plan.now) node class) result }
{
    node_note(
        printer,
        plan,
        &[
            NodePart::Node(node),
            NodePart::Of(Part::Plain(" is same_thread: the worker that entered ")),
            NodePart::Node(class),
            NodePart::Of(Part::Plain(" has to enter it")),
        ],
    )
}

/// Writes who shuts a class.
pub(crate) fn not_shutter<W: Sink>(
    printer: &mut Printer<'_, W>,
    plan: &Plan,
    node: u32,
) -> Result<(), SinkFailed>
    ensures { Prints printer.old printer.new (not_shutter_note (tree_of plan.now) node) result }
{
    node_note(
        printer,
        plan,
        &[
            NodePart::Of(Part::Plain("the worker that entered ")),
            NodePart::Node(node),
            NodePart::Of(Part::Plain(" has to shut it")),
        ],
    )
}

/// Writes what has to be finished before a node.
pub(crate) fn earlier<W: Sink>(
    printer: &mut Printer<'_, W>,
    plan: &Plan,
    node: u32,
    class: u32,
) -> Result<(), SinkFailed>
    ensures { Prints printer.old printer.new (earlier_note (tree_of plan.now) node class) result }
{
    node_note(
        printer,
        plan,
        &[
            NodePart::Node(node),
            NodePart::Of(Part::Plain(" is same_thread: each same_thread node before it in ")),
            NodePart::Node(class),
            NodePart::Of(Part::Plain(" has to be finished first")),
        ],
    )
}

/// Writes what has to be finished before a top-level class.
pub(crate) fn earlier_top<W: Sink>(
    printer: &mut Printer<'_, W>,
    plan: &Plan,
    node: u32,
) -> Result<(), SinkFailed>
    ensures { Prints printer.old printer.new (earlier_top_note (tree_of plan.now) node) result }
{
    node_note(
        printer,
        plan,
        &[
            NodePart::Node(node),
            NodePart::Of(Part::Plain(
                " is same_thread: each same_thread top-level class before it has to be finished first",
            )),
        ],
    )
}

/// Writes that a worker has no body.
pub(crate) fn no_body<W: Sink>(printer: &mut Printer<'_, W>, worker: u32) -> Result<(), SinkFailed>
    ensures { Prints printer.old printer.new (no_body_note worker) result }
{
    note(
        printer,
        &[
            Part::Plain("worker "),
            Part::Number(worker as u64),
            Part::Plain(" has no body: it has to enter or shut a node first"),
        ],
    )
}

/// Writes that a body has ended.
pub(crate) fn ended<W: Sink>(printer: &mut Printer<'_, W>, worker: u32) -> Result<(), SinkFailed>
    ensures { Prints printer.old printer.new (ended_note worker) result }
{
    note(
        printer,
        &[
            Part::Plain("the body of worker "),
            Part::Number(worker as u64),
            Part::Plain(" has no step left: `leave "),
            Part::Number(worker as u64),
            Part::Plain("` ends it"),
        ],
    )
}

/// Writes that a body hasn't ended.
pub(crate) fn not_ended<W: Sink>(
    printer: &mut Printer<'_, W>,
    worker: u32,
) -> Result<(), SinkFailed>
    ensures { Prints printer.old printer.new (not_ended_note worker) result }
{
    note(
        printer,
        &[
            Part::Plain("the body of worker "),
            Part::Number(worker as u64),
            Part::Plain(" has a step left: `step "),
            Part::Number(worker as u64),
            Part::Plain("` has to come first"),
        ],
    )
}

/// Writes what has to be finished before a class is shut.
pub(crate) fn children<W: Sink>(
    printer: &mut Printer<'_, W>,
    plan: &Plan,
    node: u32,
) -> Result<(), SinkFailed>
    ensures { Prints printer.old printer.new (children_note (tree_of plan.now) node) result }
{
    node_note(
        printer,
        plan,
        &[
            NodePart::Of(Part::Plain("each class and test in ")),
            NodePart::Node(node),
            NodePart::Of(Part::Plain(" has to be finished first")),
        ],
    )
}

/// Writes that the root isn't shut.
pub(crate) fn root_shut<W: Sink>(printer: &mut Printer<'_, W>) -> Result<(), SinkFailed>
    ensures { Prints printer.old printer.new root_shut_note result }
{
    note(
        printer,
        &[Part::Plain("node 0 is the root, which no worker shuts")],
    )
}

/// Writes that a test isn't shut.
pub(crate) fn not_class<W: Sink>(
    printer: &mut Printer<'_, W>,
    plan: &Plan,
    node: u32,
) -> Result<(), SinkFailed>
    ensures { Prints printer.old printer.new (not_class_note (tree_of plan.now) node) result }
{
    node_note(
        printer,
        plan,
        &[
            NodePart::Node(node),
            NodePart::Of(Part::Plain(" is a test: classes alone are shut")),
        ],
    )
}

/// Writes that a class isn't open.
pub(crate) fn not_open<W: Sink>(
    printer: &mut Printer<'_, W>,
    plan: &Plan,
    node: u32,
) -> Result<(), SinkFailed>
    ensures { Prints printer.old printer.new (not_open_note (tree_of plan.now) node) result }
{
    node_note(
        printer,
        plan,
        &[
            NodePart::Node(node),
            NodePart::Of(Part::Plain(" is shut once, and its before_all has to be left first")),
        ],
    )
}
