//! Which node a schedule leaves.
ghost use Rattle.std.specs.Prelude.{◌≡◌, OnOk};
ghost use Rattle.iso_explain_plan.specs.Told.{IsWritten};
ghost use Rattle.iso_explain_plan.specs.UnfinishedTexts.{IsUnfinishedText, left_note, left_words, unfinished_note, unfinished_notes};
ghost use Rattle.iso_plan.specs.RowView.{tree_of};
ghost use Rattle.iso_tap.specs.Printers.{Prints};
ghost use Rattle.iso_tap.specs.Sinks.{Wrote};

use crate::error::ExplainError;
use crate::note::{node_note, note};
use crate::part::{NodePart, Part};
use iso_model::limits::WORKERS;
use iso_plan::plan::Plan;
use iso_schedule::fault::ScheduleError;
use iso_schedule::reader::read_schedule;
use iso_standing::event::Event;
use iso_tap::printer::Printer;
use iso_tap::sink::{Sink, SinkFailed};
use std::alloc::{AllocError, Global};

/// How far a class has come.
#[derive(Clone, Copy, PartialEq, Eq)]
pub(crate) enum Stage {
    Untouched,
    Entered,
    Shut,
    Finished,
}

/// Writes what a schedule leaves whose events are all accepted: that it ends early, and the first
/// top-level class that isn't finished. The descendants of a finished class are finished.
///
/// It takes memory from `alloc`, and none is left taken.
pub fn explain_unfinished<W: Sink>(
    alloc: Global,
    schedule: &[u8],
    plan: &Plan,
    sink: &mut W,
) -> Result<(), ExplainError>
    ensures { OnOk result (IsWritten (IsUnfinishedText (tree_of plan.now)) (W.account sink.old)
        (W.account sink.new)) }
{
    let events = match read_schedule(alloc, schedule) {
        Ok(events) => events,
        Err(ScheduleError::OutOfMemory) => return Err(ExplainError::OutOfMemory),
        Err(ScheduleError::Fault(_)) => return Ok(()),
    };
    let stages = stages(alloc, plan, &events)?;
    Ok(tell(plan, first_left(plan, &stages), sink)?)
}

/// Writes what a schedule leaves.
fn tell<W: Sink>(plan: &Plan, left: Option<Left>, sink: &mut W) -> Result<(), SinkFailed>
    ensures { OnOk result (Wrote (W.account sink.old) (W.account sink.new)
        (unfinished_notes (tree_of plan.now) left)) }
{
    let mut printer = Printer::new(sink);
    unfinished_notes(&mut printer, plan, left)
}

/// The stage of each node after these events, all of which were accepted.
fn stages(alloc: Global, plan: &Plan, events: &[Event]) -> Result<Vec<Stage>, AllocError> {
    let mut stages = vec![in alloc; Stage::Untouched; plan.len() as usize]?;
    let mut bodies = vec![in alloc; 0; WORKERS as usize]?;
    'events: for event in events {
        pass(&mut stages, &mut bodies, *event);
    }
    Ok(stages)
}

/// Passes an event.
fn pass(stages: &mut [Stage], bodies: &mut [u32], event: Event) {
    match event {
        Event::Enter { worker, node } => begin(stages, bodies, worker, node, Stage::Entered),
        Event::Shut { worker, node } => begin(stages, bodies, worker, node, Stage::Shut),
        Event::Leave { worker } => leave(stages, bodies, worker),
        Event::Step { .. } => {}
    }
}

/// A worker begins a body of a node.
fn begin(stages: &mut [Stage], bodies: &mut [u32], worker: u32, node: u32, stage: Stage) {
    if (worker as usize) < bodies.len() && (node as usize) < stages.len() {
        bodies[worker as usize] = node;
        stages[node as usize] = stage;
    }
}

/// A worker leaves its body: an `after_all` finishes its class.
fn leave(stages: &mut [Stage], bodies: &[u32], worker: u32) {
    if worker as usize >= bodies.len() {
        return;
    }
    let node = bodies[worker as usize] as usize;
    if node < stages.len() && matches!(stages[node], Stage::Shut) {
        stages[node] = Stage::Finished;
    }
}

/// A node that a schedule leaves, and how far it came.
#[derive(Clone, Copy)]
pub(crate) struct Left {
    pub node: u32,
    pub stage: Stage,
}

/// The first top-level class that isn't finished.
fn first_left(plan: &Plan, stages: &[Stage]) -> Option<Left> {
    if plan.len() == 0 {
        return None;
    }
    for class in plan.children(0) {
        if let Some(left) = if_left(stages, *class) {
            return Some(left);
        }
    }
    None
}

/// A node, if it isn't finished.
fn if_left(stages: &[Stage], node: u32) -> Option<Left> {
    match stages.get(node as usize).copied() {
        Some(Stage::Finished) | None => None,
        Some(stage) => Some(Left { node, stage }),
    }
}

/// Writes that a schedule ends early, and what it leaves.
fn unfinished_notes<W: Sink>(
    printer: &mut Printer<'_, W>,
    plan: &Plan,
    left: Option<Left>,
) -> Result<(), SinkFailed>
    ensures { Prints printer.old printer.new (unfinished_notes (tree_of plan.now) left) result }
{
    unfinished_note(printer)?;
    match left {
        Some(left) => left_note(printer, plan, left),
        None => Ok(()),
    }
}

/// Writes that a schedule ends early.
fn unfinished_note<W: Sink>(printer: &mut Printer<'_, W>) -> Result<(), SinkFailed>
    ensures { Prints printer.old printer.new unfinished_note result }
{
    note(
        printer,
        &[Part::Plain("the schedule ends before every class and test is finished")],
    )
}

/// Writes what a schedule leaves.
fn left_note<W: Sink>(
    printer: &mut Printer<'_, W>,
    plan: &Plan,
    left: Left,
) -> Result<(), SinkFailed>
    ensures { Prints printer.old printer.new (left_note (tree_of plan.now) left) result }
{
    node_note(
        printer,
        plan,
        &[
            NodePart::Of(Part::Plain("the first that isn't is ")),
            NodePart::Node(left.node),
            NodePart::Of(Part::Plain(left_words(left.stage))),
        ],
    )
}

/// What there is yet to come.
fn left_words(stage: Stage) -> &'static str
    ensures { result.now ≡ left_words stage }
{
    match stage {
        Stage::Untouched => ": it isn't entered",
        Stage::Entered => ": it is entered, and not shut",
        Stage::Shut => ": it is shut, and its after_all isn't left",
        Stage::Finished => "",
    }
}
