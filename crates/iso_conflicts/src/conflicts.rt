//! The keys of a plan as text, with who takes them.
ghost use Rattle.std.specs.Prelude.{◌≡◌, ◌<◌, ◌++◌, [], cond, codes, length};
ghost use Rattle.iso_conflicts.specs.Chains.{IsOf, tests_in};
ghost use Rattle.iso_conflicts.specs.ConflictsText.{conflicts_text, counted, key_lines, keys_lines, last_line, shared_text, spaced_paths, takers_line, taking_word};
ghost use Rattle.iso_conflicts.specs.Takers.{takers, takes};
ghost use Rattle.iso_conflicts.specs.declared.longest.Shared.TheVariants.{Class};
ghost use Rattle.iso_plan.specs.KeyTable.{keys};
ghost use Rattle.iso_plan.specs.Paths.{column};
ghost use Rattle.iso_plan.specs.PathTexts.{path_text};
ghost use Rattle.iso_plan.specs.RowView.{tree_of};
ghost use Rattle.iso_tap.specs.Printers.{Prints, Writes};

use crate::chains::key_chain;
use crate::longest::{Shared, longest};
use crate::takers::{is_taken, takes};
use iso_model::access::Access;
use iso_plan::plan::Plan;
use iso_tap::fault::TapFault;
use iso_tap::printer::{Piece, Printer};
use iso_tap::sink::{Sink, SinkFailed};

/// Writes the keys of a plan for `workers` workers: the line `workers W`, then of each key, by its
/// number, the line `KEY: longest chain N tests` and, indented, the lines `write: PATH ..` and
/// `read: PATH ..` of the nodes that take it, where there are any; and last `longest chain of all:
/// N tests, WHAT`. A key's chain is the tests of all nodes that take it for READ_WRITE and of the
/// largest that takes it for READ, a class's those of its children on the same thread. WHAT is `key
/// KEY`, `class PATH` or, of the root, `top-level classes`. `tests` is what `tests_in` answers for
/// the plan. Takes no memory.
///
/// The sink is asked again where it takes only some bytes, and no more once it has failed.
pub fn write_conflicts<W: Sink>(
    plan: &Plan,
    workers: u32,
    tests: &[u32],
    sink: &mut W,
) -> Result<(), TapFault>
    requires { tests.now ≡ column (tests_in (tree_of plan.now)) (length plan.now.rows) }
    ensures { Writes (W.account sink.old) (W.account sink.new)
        (conflicts_text (tree_of plan.now) plan.now.settings workers) result }
{
    let mut printer = Printer::new(sink);
    match conflicts(&mut printer, plan, workers, tests) {
        Ok(()) => Ok(()),
        Err(_) => Err(TapFault {
            written: printer.written(),
        }),
    }
}

/// Writes the keys of a plan.
fn conflicts<W: Sink>(
    printer: &mut Printer<'_, W>,
    plan: &Plan,
    workers: u32,
    tests: &[u32],
) -> Result<(), SinkFailed>
    requires { tests.now ≡ column (tests_in (tree_of plan.now)) (length plan.now.rows) }
    ensures { Prints printer.old printer.new
        (conflicts_text (tree_of plan.now) plan.now.settings workers) result }
{
    printer.pieces(&[
        Piece::Plain(b"workers "),
        Piece::Number(u64::from(workers)),
        Piece::Plain(b"\n"),
    ])?;
    all_keys(printer, plan, tests)?;
    last_line(printer, plan, tests)
}

/// Writes the lines of all keys.
fn all_keys<W: Sink>(
    printer: &mut Printer<'_, W>,
    plan: &Plan,
    tests: &[u32],
) -> Result<(), SinkFailed>
    requires { tests.now ≡ column (tests_in (tree_of plan.now)) (length plan.now.rows) }
    ensures { Prints printer.old printer.new
        (keys_lines (tree_of plan.now) (length (keys (tree_of plan.now))) 0) result }
{
    'keys: for key in 0..plan.key_count() {
        key_lines(printer, plan, tests, key)?;
    }
    Ok(())
}

/// Writes the lines of a key.
fn key_lines<W: Sink>(
    printer: &mut Printer<'_, W>,
    plan: &Plan,
    tests: &[u32],
    key: u32,
) -> Result<(), SinkFailed>
    requires tests { tests.now ≡ column (tests_in (tree_of plan.now)) (length plan.now.rows) }
    requires key { key < length (keys (tree_of plan.now)) }
    ensures { Prints printer.old printer.new (key_lines (tree_of plan.now) key) result }
{
    printer.pieces(&[
        Piece::Plain(plan.key(key).as_bytes()),
        Piece::Plain(b": longest chain "),
    ])?;
    counted(printer, key_chain(plan, tests, key))?;
    printer.bytes(b"\n")?;
    takers_line(printer, plan, Access::Write, key)?;
    takers_line(printer, plan, Access::Read, key)
}

/// Writes the line of the nodes that take a key with this access, where there are any.
fn takers_line<W: Sink>(
    printer: &mut Printer<'_, W>,
    plan: &Plan,
    access: Access,
    key: u32,
) -> Result<(), SinkFailed>
    ensures { Prints printer.old printer.new
        (takers_line (tree_of plan.now) (taking_word access) (takers (tree_of plan.now) access key))
        result }
{
    if !is_taken(plan, access, key) {
        return Ok(());
    }
    printer.pieces(&[
        Piece::Plain(b"    "),
        Piece::Plain(taking_word(access).as_bytes()),
        Piece::Plain(b":"),
    ])?;
    taker_paths(printer, plan, access, key)?;
    printer.bytes(b"\n")
}

/// Writes the paths of the nodes that take a key with this access.
fn taker_paths<W: Sink>(
    printer: &mut Printer<'_, W>,
    plan: &Plan,
    access: Access,
    key: u32,
) -> Result<(), SinkFailed>
    ensures { Prints printer.old printer.new
        (spaced_paths (tree_of plan.now) (takers (tree_of plan.now) access key)) result }
{
    'nodes: for node in 1..plan.len() {
        taker_path(printer, plan, access, key, node)?;
    }
    Ok(())
}

/// Writes the path of a node that takes a key with this access.
fn taker_path<W: Sink>(
    printer: &mut Printer<'_, W>,
    plan: &Plan,
    access: Access,
    key: u32,
    node: u32,
) -> Result<(), SinkFailed>
    requires above { 0 < node }
    requires within { node < length plan.now.rows }
    ensures { Prints printer.old printer.new
        (cond (takes (tree_of plan.now) access key node)
        (codes " " ++ path_text (tree_of plan.now) node) []) result }
{
    if !takes(plan, access, key, node) {
        return Ok(());
    }
    printer.bytes(b" ")?;
    printer.path(plan, node)
}

/// Writes the longest chain of all.
fn last_line<W: Sink>(
    printer: &mut Printer<'_, W>,
    plan: &Plan,
    tests: &[u32],
) -> Result<(), SinkFailed>
    requires { tests.now ≡ column (tests_in (tree_of plan.now)) (length plan.now.rows) }
    ensures { Prints printer.old printer.new
        (last_line (tree_of plan.now) plan.now.settings) result }
{
    let chain = longest(plan, tests);
    printer.bytes(b"longest chain of all: ")?;
    counted(printer, chain.tests)?;
    printer.bytes(b", ")?;
    shared(printer, plan, chain.shared)?;
    printer.bytes(b"\n")
}

/// Writes what the tests of a chain share.
fn shared<W: Sink>(
    printer: &mut Printer<'_, W>,
    plan: &Plan,
    shared: Shared,
) -> Result<(), SinkFailed>
    requires { IsOf (tree_of plan.now) shared }
    ensures { Prints printer.old printer.new (shared_text (tree_of plan.now) shared) result }
{
    match shared {
        Shared::Class(class) => shared_class(printer, plan, class),
        Shared::Key(key) => printer.pieces(&[
            Piece::Plain(b"key "),
            Piece::Plain(plan.key(key).as_bytes()),
        ]),
    }
}

/// Writes on the thread of which class the tests of a chain are.
fn shared_class<W: Sink>(
    printer: &mut Printer<'_, W>,
    plan: &Plan,
    class: u32,
) -> Result<(), SinkFailed>
    requires { class < length plan.now.rows }
    ensures { Prints printer.old printer.new (shared_text (tree_of plan.now) (Class class)) result }
{
    if class == 0 {
        return printer.bytes(b"top-level classes");
    }
    printer.bytes(b"class ")?;
    printer.path(plan, class)
}

/// Writes a number of tests.
fn counted<W: Sink>(printer: &mut Printer<'_, W>, tests: u64) -> Result<(), SinkFailed>
    ensures { Prints printer.old printer.new (counted tests) result }
{
    let word: &[u8] = if tests == 1 { b" test" } else { b" tests" };
    printer.pieces(&[Piece::Number(tests), Piece::Plain(word)])
}

/// The word of a line of nodes that take a key so.
fn taking_word(access: Access) -> &'static str
    ensures { result.now ≡ taking_word access }
{
    match access {
        Access::Read => "read",
        Access::Write => "write",
    }
}
