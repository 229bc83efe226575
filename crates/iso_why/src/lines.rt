//! The lines of reasons below that of a node.
ghost use Rattle.std.specs.Prelude.{◌≡◌, ◌<◌, ◌≤◌, ℕ, codes, cond, length, true};
ghost use Rattle.std.specs.List.{flat_map};
ghost use Rattle.iso_plan.specs.KeyTable.{keys};
ghost use Rattle.iso_plan.specs.Locks.{locks};
ghost use Rattle.iso_plan.specs.Paths.{is_under};
ghost use Rattle.iso_plan.specs.RowView.{tree_of};
ghost use Rattle.iso_tap.specs.PlanText.{access_word};
ghost use Rattle.iso_tap.specs.Printers.{Prints};
ghost use Rattle.iso_why.specs.Givers.{givers};
ghost use Rattle.iso_why.specs.Reach.{IsReach};
ghost use Rattle.iso_why.specs.ModeReasons.{IsKnown};
ghost use Rattle.iso_why.specs.declared.why.Cause.TheVariants.{Marked};
ghost use Rattle.iso_why.specs.WhyText.{from_text, lock_line, mode_line, paths_text, why_text};

use crate::givers::next_giver;
use crate::why::{Cause, why};
use iso_model::access::Access;
use iso_plan::laws;
use iso_plan::lock::Lock;
use iso_plan::plan::Plan;
use iso_tap::printer::{Piece, Printer};
use iso_tap::sink::{Sink, SinkFailed};

/// Writes the line of a node's mode.
pub(crate) fn mode_line<W: Sink>(
    printer: &mut Printer<'_, W>,
    plan: &Plan,
    node: u32,
) -> Result<(), SinkFailed>
    requires above { 0 < node }
    requires within { node < length plan.now.rows }
    ensures { Prints printer.old printer.new
        (mode_line (tree_of plan.now) plan.now.settings node) result }
{
    printer.bytes(b"    mode: ")?;
    reason(printer, plan, node, why(plan, node))?;
    printer.bytes(b"\n")
}

/// Writes a reason.
fn reason<W: Sink>(
    printer: &mut Printer<'_, W>,
    plan: &Plan,
    node: u32,
    why: Cause,
) -> Result<(), SinkFailed>
    requires { IsKnown (tree_of plan.now) why }
    ensures { Prints printer.old printer.new (why_text (tree_of plan.now) node why) result }
{
    match why {
        Cause::Off => printer.bytes(b"parallel execution is off"),
        Cause::Forced { class, key } => {
            printer.pieces(&[
                Piece::Plain(b"forced by w:"),
                Piece::Plain(plan.key(key).as_bytes()),
                Piece::Plain(b" of "),
            ])?;
            printer.path(plan, class)
        }
        Cause::Marked { node: marked } => marked_on(printer, plan, node, marked),
        Cause::Default { top } => printer.bytes(default_text(top).as_bytes()),
    }
}

/// Writes which node is marked.
fn marked_on<W: Sink>(
    printer: &mut Printer<'_, W>,
    plan: &Plan,
    node: u32,
    marked: u32,
) -> Result<(), SinkFailed>
    requires above { 0 < marked }
    requires within { marked < length plan.now.rows }
    ensures { Prints printer.old printer.new
        (why_text (tree_of plan.now) node (Marked marked)) result }
{
    if marked == node {
        return printer.bytes(b"marked");
    }
    printer.bytes(b"marked on ")?;
    printer.path(plan, marked)
}

/// Writes the lines of a node's locks.
pub(crate) fn lock_lines<W: Sink>(
    printer: &mut Printer<'_, W>,
    plan: &Plan,
    reach: &[u32],
    node: u32,
) -> Result<(), SinkFailed>
    requires reach { IsReach (tree_of plan.now) reach.now }
    requires above { 0 < node }
    requires within { node < length plan.now.rows }
    ensures { Prints printer.old printer.new
        (flat_map (lock_line (tree_of plan.now) node) (locks (tree_of plan.now) node)) result }
{
    'locks: for lock in plan.locks(node) {
        lock_line(printer, plan, reach, node, *lock)?;
    }
    Ok(())
}

/// Writes the line of a lock of a node.
fn lock_line<W: Sink>(
    printer: &mut Printer<'_, W>,
    plan: &Plan,
    reach: &[u32],
    node: u32,
    lock: Lock,
) -> Result<(), SinkFailed>
    requires reach { IsReach (tree_of plan.now) reach.now }
    requires above { 0 < node }
    requires within { node < length plan.now.rows }
    requires key { lock.key < length (keys (tree_of plan.now)) }
    ensures { Prints printer.old printer.new (lock_line (tree_of plan.now) node lock) result }
{
    printer.pieces(&[
        Piece::Plain(b"    "),
        Piece::Plain(access_word(lock.access).as_bytes()),
        Piece::Plain(plan.key(lock.key).as_bytes()),
        Piece::Plain(b" from "),
    ])?;
    from(printer, plan, reach, node, lock)?;
    printer.bytes(b"\n")
}

/// Writes where a node has a lock from.
fn from<W: Sink>(
    printer: &mut Printer<'_, W>,
    plan: &Plan,
    reach: &[u32],
    node: u32,
    lock: Lock,
) -> Result<(), SinkFailed>
    requires reach { IsReach (tree_of plan.now) reach.now }
    requires above { 0 < node }
    requires within { node < length plan.now.rows }
    requires key { lock.key < length (keys (tree_of plan.now)) }
    ensures { Prints printer.old printer.new (from_text (tree_of plan.now) node lock) result }
{
    if lock.key == 0 {
        return global_from(printer, plan, reach, node, lock);
    }
    givers(printer, plan, reach, node, lock)
}

/// Writes where a node has the global key from.
fn global_from<W: Sink>(
    printer: &mut Printer<'_, W>,
    plan: &Plan,
    reach: &[u32],
    node: u32,
    lock: Lock,
) -> Result<(), SinkFailed>
    requires reach { IsReach (tree_of plan.now) reach.now }
    requires above { 0 < node }
    requires within { node < length plan.now.rows }
    requires known { lock.key < length (keys (tree_of plan.now)) }
    requires global { lock.key ≡ 0 }
    ensures { Prints printer.old printer.new (from_text (tree_of plan.now) node lock) result }
{
    match lock.access {
        Access::Read => printer.bytes(b"every top-level class"),
        Access::Write => {
            printer.bytes(b"isolated ")?;
            givers(printer, plan, reach, node, lock)
        }
    }
}

/// Writes the paths of the nodes that gave a node a lock.
fn givers<W: Sink>(
    printer: &mut Printer<'_, W>,
    plan: &Plan,
    reach: &[u32],
    node: u32,
    lock: Lock,
) -> Result<(), SinkFailed>
    requires reach { IsReach (tree_of plan.now) reach.now }
    requires above { 0 < node }
    requires within { node < length plan.now.rows }
    requires key { lock.key < length (keys (tree_of plan.now)) }
    ensures { Prints printer.old printer.new
        (paths_text (tree_of plan.now) (givers (tree_of plan.now) node lock)) result }
{
    laws::parents_come_first(plan);
    let end = end_of(plan, reach, node);
    let mut from = node;
    let mut separator: &[u8] = b"";
    'givers: while let Some(giver) = next_giver(plan, node, lock, from, end) {
        printer.bytes(separator)?;
        printer.path(plan, giver)?;
        separator = b", ";
        from = giver + 1;
    }
    Ok(())
}

/// A number past a node's own and those of all its descendants, unless it is the root, and no
/// greater than there are nodes.
fn end_of(plan: &Plan, reach: &[u32], node: u32) -> u32
    requires reach { IsReach (tree_of plan.now) reach.now }
    requires within { node < length plan.now.rows }
    ensures within { result ≤ length plan.now.rows }
    ensures past { (m : ℕ) → m < length plan.now.rows → is_under (tree_of plan.now) node m ≡ true
        → m < result }
{
    reach[node as usize].min(plan.len())
}

/// The default that gives a mode, that of top-level classes or that of all others.
fn default_text(top: bool) -> &'static str
    ensures { result.now ≡ cond top (codes "by mode.classes.default") (codes "by mode.default") }
{
    if top {
        "by mode.classes.default"
    } else {
        "by mode.default"
    }
}

/// How a key is taken.
fn access_word(access: Access) -> &'static str
    ensures { result.now ≡ access_word access }
{
    match access {
        Access::Read => "r:",
        Access::Write => "w:",
    }
}
