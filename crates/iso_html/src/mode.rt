//! How a node runs: its mode, and the keys that it takes.
ghost use Rattle.std.specs.Prelude.{◌≡◌, ◌<◌, flat_map, length};
ghost use Rattle.iso_html.specs.Modes.{lock_text, mode_text};
ghost use Rattle.iso_plan.specs.RowView.{tree_of};
ghost use Rattle.iso_tap.specs.Printers.{Prints};

use crate::part::Part;
use crate::sign::{access_verb, mode_word};
use crate::writing::write_parts;
use iso_plan::lock::Lock;
use iso_plan::plan::Plan;
use iso_tap::printer::Printer;
use iso_tap::sink::{Sink, SinkFailed};

/// Writes the mode of a node, and its locks by key.
pub(crate) fn mode<W: Sink>(
    printer: &mut Printer<'_, W>,
    plan: &Plan,
    node: u32,
) -> Result<(), SinkFailed>
    requires { node < length plan.now.rows }
    ensures { Prints printer.old printer.new
        (mode_text (tree_of plan.now) plan.now.settings node) result }
{
    let word = mode_word(plan.mode(node));
    let locks = plan.locks(node);
    printer.bytes(b"<p>")?;
    printer.bytes(word.as_bytes())?;
    all_locks(printer, plan, locks)?;
    printer.bytes(b"</p>\n")
}

/// Writes locks, one after another.
fn all_locks<W: Sink>(
    printer: &mut Printer<'_, W>,
    plan: &Plan,
    locks: &[Lock],
) -> Result<(), SinkFailed>
    ensures { Prints printer.old printer.new
        (flat_map (lock_text (tree_of plan.now)) locks.now) result }
{
    for lock in locks {
        write_lock(printer, plan, *lock)?;
    }
    Ok(())
}

/// Writes that a node takes a key, and how.
fn write_lock<W: Sink>(
    printer: &mut Printer<'_, W>,
    plan: &Plan,
    lock: Lock,
) -> Result<(), SinkFailed>
    ensures { Prints printer.old printer.new (lock_text (tree_of plan.now) lock) result }
{
    write_parts(
        printer,
        plan,
        &[
            Part::Plain(access_verb(lock.access)),
            Part::Plain(" <code>"),
            Part::Key(lock.key),
            Part::Plain("</code>"),
        ],
    )
}
