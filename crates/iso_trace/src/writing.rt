//! Events that are written part by part.
ghost use Rattle.std.specs.Prelude.{◌≡◌, map};
ghost use Rattle.iso_plan.specs.RowView.{tree_of};
ghost use Rattle.iso_tap.specs.Printers.{Prints};
ghost use Rattle.iso_trace.specs.Parts.{access_text, category, critical_argument, joined, lock_text, locks_text, micros, node_locks, node_text, part_text, wait_name};

use crate::names::name_at;
use crate::part::Part;
use crate::trace::Run;
use iso_model::access::Access;
use iso_plan::lock::Lock;
use iso_plan::plan::Plan;
use iso_tap::printer::{Piece, Printer};
use iso_tap::sink::{Sink, SinkFailed};

/// Writes parts, one after another.
pub(crate) fn parts<W: Sink>(
    printer: &mut Printer<'_, W>,
    run: &Run<'_, '_>,
    parts: &[Part<'_>],
) -> Result<(), SinkFailed>
    ensures { Prints printer.old printer.new
        (joined (map (part_text (tree_of run.now.plan.now)) parts.now)) result }
{
    for part in parts {
        write_part(printer, run, part)?;
    }
    Ok(())
}

/// Writes a part.
fn write_part<W: Sink>(
    printer: &mut Printer<'_, W>,
    run: &Run<'_, '_>,
    part: &Part<'_>,
) -> Result<(), SinkFailed>
    ensures { Prints printer.old printer.new
        (part_text (tree_of run.now.plan.now) part.now) result }
{
    match *part {
        Part::Plain(text) => printer.bytes(text.as_bytes()),
        Part::Number(number) => printer.number(number),
        Part::Lane(worker) => printer.number(u64::from(worker)),
        Part::Micros(nanos) => micros(printer, nanos),
        Part::Between(begin, end) => micros(printer, end.saturating_sub(begin)),
        Part::Node(number) => node(printer, run.plan, number),
        Part::Wait(key) => wait_name(printer, run, key),
        Part::Locks(number) => node_locks(printer, run, number),
        Part::Category(critical) => printer.bytes(category(critical).as_bytes()),
        Part::Critical(critical) => printer.bytes(critical_argument(critical).as_bytes()),
    }
}

/// Writes nanoseconds in microseconds, with three decimals.
fn micros<W: Sink>(printer: &mut Printer<'_, W>, nanos: u64) -> Result<(), SinkFailed>
    ensures { Prints printer.old printer.new (micros nanos) result }
{
    printer.pieces(&[
        Piece::Number(nanos / 1_000),
        Piece::Plain(b"."),
        Piece::Number(nanos / 100 % 10),
        Piece::Number(nanos / 10 % 10),
        Piece::Number(nanos % 10),
    ])
}

/// Writes a node's path; a number that is no node's, and the root, have none.
fn node<W: Sink>(printer: &mut Printer<'_, W>, plan: &Plan, node: u32) -> Result<(), SinkFailed>
    ensures { Prints printer.old printer.new (node_text (tree_of plan.now) node) result }
{
    if node == 0 || plan.len() <= node {
        return printer.bytes(b"");
    }
    printer.path(plan, node)
}

/// Writes what a wait for a key is called.
fn wait_name<W: Sink>(
    printer: &mut Printer<'_, W>,
    run: &Run<'_, '_>,
    key: u32,
) -> Result<(), SinkFailed>
    ensures { Prints printer.old printer.new (wait_name (tree_of run.now.plan.now) key) result }
{
    printer.bytes(name_at(&run.names.waits, key).as_bytes())
}

/// Writes the locks of a node; a number that is no node's has none.
fn node_locks<W: Sink>(
    printer: &mut Printer<'_, W>,
    run: &Run<'_, '_>,
    node: u32,
) -> Result<(), SinkFailed>
    ensures { Prints printer.old printer.new (node_locks (tree_of run.now.plan.now) node) result }
{
    if run.plan.len() <= node {
        return printer.bytes(b"");
    }
    locks(printer, run, run.plan.locks(node))
}

/// Writes locks, one after another.
fn locks<W: Sink>(
    printer: &mut Printer<'_, W>,
    run: &Run<'_, '_>,
    locks: &[Lock],
) -> Result<(), SinkFailed>
    ensures { Prints printer.old printer.new
        (locks_text (tree_of run.now.plan.now) locks.now) result }
{
    for lock in locks {
        write_lock(printer, run, *lock)?;
    }
    Ok(())
}

/// Writes a lock.
fn write_lock<W: Sink>(
    printer: &mut Printer<'_, W>,
    run: &Run<'_, '_>,
    lock: Lock,
) -> Result<(), SinkFailed>
    ensures { Prints printer.old printer.new (lock_text (tree_of run.now.plan.now) lock) result }
{
    printer.pieces(&[
        Piece::Plain(b","),
        Piece::Plain(name_at(&run.names.locks, lock.key).as_bytes()),
        Piece::Plain(b":\""),
        Piece::Plain(access_text(lock.access).as_bytes()),
        Piece::Plain(b"\""),
    ])
}

/// The categories of a body, critical or not.
fn category(critical: bool) -> &'static str
    ensures { result.now ≡ category critical }
{
    if critical { "body,critical" } else { "body" }
}

/// What tells of a critical body among the arguments of its event.
fn critical_argument(critical: bool) -> &'static str
    ensures { result.now ≡ critical_argument critical }
{
    if critical { ",\"critical\":true" } else { "" }
}

/// How a key is taken.
fn access_text(access: Access) -> &'static str
    ensures { result.now ≡ access_text access }
{
    match access {
        Access::Read => "read",
        Access::Write => "write",
    }
}
