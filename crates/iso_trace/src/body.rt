//! The bodies of nodes as events.
ghost use Rattle.std.specs.Prelude.{◌≡◌, ◌<◌, length};
ghost use Rattle.iso_plan.specs.RowView.{tree_of};
ghost use Rattle.iso_tap.specs.Printers.{Prints};
ghost use Rattle.iso_trace.specs.TraceText.{body_event, first_kind, node_events, timed_event};

use crate::part::Part;
use crate::trace::Run;
use crate::verdict::word;
use crate::writing::parts;
use iso_lifecycle::kind::BodyKind;
use iso_plan::plan::Plan;
use iso_tap::printer::Printer;
use iso_tap::sink::{Sink, SinkFailed};
use iso_times::times::BodyTime;

/// Writes the bodies of a node.
pub(crate) fn node_events<W: Sink>(
    printer: &mut Printer<'_, W>,
    run: &Run<'_, '_>,
    node: u32,
) -> Result<(), SinkFailed>
    requires { node < length run.now.plan.now.rows }
    ensures { Prints printer.old printer.new
        (node_events (tree_of run.now.plan.now) run.now.times.now run.now.results.now
        run.now.critical.now node) result }
{
    let first = run.times.body(node, BodyKind::BeforeAll);
    let last = run.times.body(node, BodyKind::AfterAll);
    let opens = run.critical.has(node, BodyKind::BeforeAll);
    let closes = run.critical.has(node, BodyKind::AfterAll);
    event(printer, run, node, first_kind(run.plan, node), opens, first)?;
    event(printer, run, node, " after_all", closes, last)
}

/// What stands behind a node's path in the name of its first body.
fn first_kind(plan: &Plan, node: u32) -> &'static str
    requires { node < length plan.now.rows }
    ensures { result.now ≡ first_kind (tree_of plan.now) node }
{
    if plan.is_test(node) {
        ""
    } else {
        " before_all"
    }
}

/// Writes a body, if it has a time.
fn event<'x, W: Sink>(
    printer: &mut Printer<'_, W>,
    run: &Run<'x, '_>,
    node: u32,
    kind: &'x str,
    critical: bool,
    time: Option<BodyTime>,
) -> Result<(), SinkFailed>
    requires { node < length run.now.plan.now.rows }
    ensures { Prints printer.old printer.new
        (body_event (tree_of run.now.plan.now) run.now.results.now node kind.now critical time)
        result }
{
    match time {
        Some(time) => timed(
            printer,
            run,
            word(run.results, node),
            node,
            kind,
            critical,
            time,
        ),
        None => printer.bytes(b""),
    }
}

/// Writes a body.
fn timed<'x, W: Sink>(
    printer: &mut Printer<'_, W>,
    run: &Run<'x, '_>,
    word: &'x str,
    node: u32,
    kind: &'x str,
    critical: bool,
    time: BodyTime,
) -> Result<(), SinkFailed>
    requires { node < length run.now.plan.now.rows }
    ensures { Prints printer.old printer.new
        (timed_event (tree_of run.now.plan.now) word.now node kind.now critical time) result }
{
    parts(
        printer,
        run,
        &[
            Part::Plain(",\n{\"ph\":\"X\",\"pid\":1,\"tid\":"),
            Part::Lane(time.worker),
            Part::Plain(",\"cat\":\""),
            Part::Category(critical),
            Part::Plain("\",\"name\":\""),
            Part::Node(node),
            Part::Plain(kind),
            Part::Plain("\",\"ts\":"),
            Part::Micros(time.begin),
            Part::Plain(",\"dur\":"),
            Part::Between(time.begin, time.end),
            Part::Plain(",\"args\":{\"path\":\""),
            Part::Node(node),
            Part::Plain("\",\"verdict\":\""),
            Part::Plain(word),
            Part::Plain("\""),
            Part::Critical(critical),
            Part::Locks(node),
            Part::Plain("}}"),
        ],
    )
}
