//! Why an event is refused, in words.
ghost use Rattle.std.specs.Prelude.{◌≡◌};
ghost use Rattle.iso_explain_plan.specs.Refusals.{clash_note, class_in, enter_owner_note, held_note, is_shut, key_text, entered_before_note, sibling_note, no_class_note, locked_notes, left_first_note, for_access, node_of, owner_note, why_notes, worker_of};
ghost use Rattle.iso_plan.specs.RowView.{tree_of};
ghost use Rattle.iso_tap.specs.Printers.{Prints};

use crate::clash::{Clash, first_clash};
use crate::note::node_note;
use crate::part::{NodePart, Part};
use crate::reason::{
    busy, children, closed, earlier, earlier_top, ended, entered, no_body, no_node, no_worker,
    not_class, not_ended, not_first, not_open, not_owner, not_shutter, root_entered, root_shut,
    stopped,
};
use iso_model::access::Access;
use iso_plan::plan::Plan;
use iso_standing::event::Event;
use iso_standing::refused::Refused;
use iso_tap::printer::Printer;
use iso_tap::sink::{Sink, SinkFailed};

/// Writes why an event is refused: what would have to come first, or what isn't there.
pub(crate) fn why_notes<W: Sink>(
    printer: &mut Printer<'_, W>,
    plan: &Plan,
    event: Event,
    refused: Refused,
) -> Result<(), SinkFailed>
    ensures { Prints printer.old printer.new (why_notes (tree_of plan.now) event refused) result }
{
    let worker = worker_of(event);
    let node = node_of(event);
    match refused {
        Refused::Stopped => stopped(printer),
        Refused::NoWorker => no_worker(printer, worker),
        Refused::NoNode => no_node(printer, plan, node),
        Refused::WorkerBusy => busy(printer, worker),
        Refused::ParentClosed => closed(printer, plan, class_in(plan, node)),
        Refused::AlreadyEntered => entered_before(printer, plan, node),
        Refused::NotOwner => owner(printer, plan, event, node),
        Refused::EarlierSibling => sibling(printer, plan, node),
        Refused::LockHeld(holder) => locked(printer, plan, node, holder),
        Refused::NoBody => no_body(printer, worker),
        Refused::BodyEnded => ended(printer, worker),
        Refused::BodyNotEnded => not_ended(printer, worker),
        Refused::ChildrenLeft => children(printer, plan, node),
        Refused::NotClass => no_class(printer, plan, node),
        Refused::NotOpen => not_open(printer, plan, node),
        Refused::OtherBody(_) | Refused::Stranger => Ok(()),
    }
}

/// The worker of an event.
fn worker_of(event: Event) -> u32
    ensures { result ≡ worker_of event }
{
    match event {
        Event::Enter { worker, .. }
        | Event::Step { worker }
        | Event::Leave { worker }
        | Event::Shut { worker, .. } => worker,
    }
}

/// The node of an event; the root of one that has none.
fn node_of(event: Event) -> u32
    ensures { result ≡ node_of event }
{
    match event {
        Event::Enter { node, .. } | Event::Shut { node, .. } => node,
        Event::Step { .. } | Event::Leave { .. } => 0,
    }
}

/// The parent of a node; the root of one that isn't there.
fn class_in(plan: &Plan, node: u32) -> u32
    ensures { result ≡ class_in (tree_of plan.now) node }
{
    if node < plan.len() {
        plan.parent(node).unwrap_or(0)
    } else {
        0
    }
}

/// Writes that a node was entered before, as the root is.
fn entered_before<W: Sink>(
    printer: &mut Printer<'_, W>,
    plan: &Plan,
    node: u32,
) -> Result<(), SinkFailed>
    ensures { Prints printer.old printer.new (entered_before_note (tree_of plan.now) node) result }
{
    if node == 0 {
        root_entered(printer)
    } else {
        entered(printer, plan, node)
    }
}

/// Writes which worker has to enter a node, or shut it.
fn owner<W: Sink>(
    printer: &mut Printer<'_, W>,
    plan: &Plan,
    event: Event,
    node: u32,
) -> Result<(), SinkFailed>
    ensures { Prints printer.old printer.new (owner_note (tree_of plan.now) event node) result }
{
    if is_shut(event) {
        not_shutter(printer, plan, node)
    } else {
        enter_owner(printer, plan, node)
    }
}

/// Whether an event begins the `after_all` of a class.
fn is_shut(event: Event) -> bool
    ensures { result ≡ is_shut event }
{
    matches!(event, Event::Shut { .. })
}

/// Writes which worker has to enter a node.
fn enter_owner<W: Sink>(
    printer: &mut Printer<'_, W>,
    plan: &Plan,
    node: u32,
) -> Result<(), SinkFailed>
    ensures { Prints printer.old printer.new (enter_owner_note (tree_of plan.now) node) result }
{
    let class = class_in(plan, node);
    if class == 0 {
        not_first(printer, plan, node)
    } else {
        not_owner(printer, plan, node, class)
    }
}

/// Writes which nodes have to be finished before a node.
fn sibling<W: Sink>(printer: &mut Printer<'_, W>, plan: &Plan, node: u32) -> Result<(), SinkFailed>
    ensures { Prints printer.old printer.new (sibling_note (tree_of plan.now) node) result }
{
    let class = class_in(plan, node);
    if class == 0 {
        earlier_top(printer, plan, node)
    } else {
        earlier(printer, plan, node, class)
    }
}

/// Writes that a node is no class.
fn no_class<W: Sink>(printer: &mut Printer<'_, W>, plan: &Plan, node: u32) -> Result<(), SinkFailed>
    ensures { Prints printer.old printer.new (no_class_note (tree_of plan.now) node) result }
{
    if node == 0 {
        root_shut(printer)
    } else {
        not_class(printer, plan, node)
    }
}

/// Writes which key a node takes that another one holds, and that this one has to be left.
fn locked<W: Sink>(
    printer: &mut Printer<'_, W>,
    plan: &Plan,
    node: u32,
    holder: u32,
) -> Result<(), SinkFailed>
    ensures { Prints printer.old printer.new (locked_notes (tree_of plan.now) node holder) result }
{
    held(printer, plan, node, holder)?;
    left_first(printer, plan, holder)
}

/// Writes that a node has to be left first.
fn left_first<W: Sink>(
    printer: &mut Printer<'_, W>,
    plan: &Plan,
    holder: u32,
) -> Result<(), SinkFailed>
    ensures { Prints printer.old printer.new (left_first_note (tree_of plan.now) holder) result }
{
    node_note(
        printer,
        plan,
        &[
            NodePart::Node(holder),
            NodePart::Of(Part::Plain(
                " has to be finished first: a test by its leave, a class by the leave of its after_all",
            )),
        ],
    )
}

/// Writes which key a node takes that another one holds, where both are in the plan.
fn held<W: Sink>(
    printer: &mut Printer<'_, W>,
    plan: &Plan,
    node: u32,
    holder: u32,
) -> Result<(), SinkFailed>
    ensures { Prints printer.old printer.new (held_note (tree_of plan.now) node holder) result }
{
    if node >= plan.len() || holder >= plan.len() {
        return Ok(());
    }
    match first_clash(plan.locks(node), plan.locks(holder)) {
        Some(found) => clash_note(printer, plan, node, holder, found),
        None => Ok(()),
    }
}

/// Writes which key a node takes and another one holds, and how.
fn clash_note<W: Sink>(
    printer: &mut Printer<'_, W>,
    plan: &Plan,
    node: u32,
    holder: u32,
    found: Clash,
) -> Result<(), SinkFailed>
    ensures { Prints printer.old printer.new
        (clash_note (tree_of plan.now) node holder found) result }
{
    node_note(
        printer,
        plan,
        &[
            NodePart::Node(node),
            NodePart::Of(Part::Plain(" takes ")),
            NodePart::Of(Part::Shown(key_text(plan, found.key))),
            NodePart::Of(Part::Plain(for_access(found.taken))),
            NodePart::Of(Part::Plain("; ")),
            NodePart::Node(holder),
            NodePart::Of(Part::Plain(" holds it")),
            NodePart::Of(Part::Plain(for_access(found.held))),
            NodePart::Of(Part::Plain(", entered and not left")),
        ],
    )
}

/// A key by its number; an empty one where there is none.
fn key_text(plan: &Plan, key: u32) -> &str
    ensures { result.now ≡ key_text (tree_of plan.now) key }
{
    if key < plan.key_count() {
        plan.key(key)
    } else {
        ""
    }
}

/// How a key is taken.
fn for_access(access: Access) -> &'static str
    ensures { result.now ≡ for_access access }
{
    match access {
        Access::Read => " for read",
        Access::Write => " for write",
    }
}
