//! Lines that are written part by part.
ghost use Rattle.std.specs.Prelude.{◌≡◌, ◌==◌, [], cond, codes, map};
ghost use Rattle.iso_plan.specs.RowView.{tree_of};
ghost use Rattle.iso_stats.specs.Parts.{comma, counted, joined, key_text, link_text, more, node_if, node_text, part_text};
ghost use Rattle.iso_tap.specs.Printers.{Prints};

use crate::figures::Link;
use crate::part::Part;
use crate::time::{tenths, time};
use iso_plan::plan::Plan;
use iso_tap::printer::{Piece, Printer};
use iso_tap::sink::{Sink, SinkFailed};

/// Writes parts, one after another.
pub(crate) fn parts<W: Sink>(
    printer: &mut Printer<'_, W>,
    plan: &Plan,
    parts: &[Part<'_>],
) -> Result<(), SinkFailed>
    ensures { Prints printer.old printer.new
        (joined (map (part_text (tree_of plan.now)) parts.now)) result }
{
    for part in parts {
        write_part(printer, plan, part)?;
    }
    Ok(())
}

/// Writes a part.
fn write_part<W: Sink>(
    printer: &mut Printer<'_, W>,
    plan: &Plan,
    part: &Part<'_>,
) -> Result<(), SinkFailed>
    ensures { Prints printer.old printer.new (part_text (tree_of plan.now) part.now) result }
{
    match *part {
        Part::Plain(text) => printer.bytes(text.as_bytes()),
        Part::Number(number) => printer.number(number),
        Part::Counted(number, word) => counted(printer, number, word),
        Part::Time(nanos) => time(printer, nanos),
        Part::Tenths(number) => tenths(printer, number),
        Part::Key(number) => printer.bytes(key(plan, number).as_bytes()),
        Part::Node(number) => node(printer, plan, number),
        Part::Link(found) => link(printer, plan, found),
        Part::Comma(number) => printer.bytes(comma(number).as_bytes()),
        Part::NodeIf(number) => node_if(printer, plan, number),
        Part::More(there_is, signs) => printer.bytes(more(there_is, signs).as_bytes()),
    }
}

/// Writes how many there are of what has this word for one.
fn counted<W: Sink>(printer: &mut Printer<'_, W>, number: u32, word: &str) -> Result<(), SinkFailed>
    ensures { Prints printer.old printer.new (counted number word.now) result }
{
    printer.pieces(&[
        Piece::Number(u64::from(number)),
        Piece::Plain(word.as_bytes()),
        Piece::Plain(plural(number).as_bytes()),
    ])
}

/// The end of a word for `number` of what it names.
fn plural(number: u32) -> &'static str
    ensures { result.now ≡ cond (number == 1) [] (codes "s") }
{
    if number == 1 { "" } else { "s" }
}

/// Writes what makes a chain.
fn link<W: Sink>(printer: &mut Printer<'_, W>, plan: &Plan, link: Link) -> Result<(), SinkFailed>
    ensures { Prints printer.old printer.new (link_text (tree_of plan.now) link) result }
{
    match link {
        Link::Key(number) => printer.bytes(key(plan, number).as_bytes()),
        Link::Class(class) => node(printer, plan, class),
    }
}

/// A comma, if a node follows.
fn comma(number: Option<u32>) -> &'static str
    ensures { result.now ≡ comma number }
{
    match number {
        Some(_) => ", ",
        None => "",
    }
}

/// Writes a node's path, if there is one.
fn node_if<W: Sink>(
    printer: &mut Printer<'_, W>,
    plan: &Plan,
    number: Option<u32>,
) -> Result<(), SinkFailed>
    ensures { Prints printer.old printer.new (node_if (tree_of plan.now) number) result }
{
    match number {
        Some(number) => node(printer, plan, number),
        None => printer.bytes(b""),
    }
}

/// Writes a node's path; the root has none, nor has a number that is no node's.
fn node<W: Sink>(printer: &mut Printer<'_, W>, plan: &Plan, node: u32) -> Result<(), SinkFailed>
    ensures { Prints printer.old printer.new (node_text (tree_of plan.now) node) result }
{
    if node == 0 || plan.len() <= node {
        return printer.bytes(b"top level");
    }
    printer.path(plan, node)
}

/// A key by its number.
fn key(plan: &Plan, number: u32) -> &str
    ensures { result.now ≡ key_text (tree_of plan.now) number }
{
    if number < plan.key_count() {
        plan.key(number)
    } else {
        ""
    }
}

/// These signs, where there is more.
fn more(there_is: bool, signs: &str) -> &str
    ensures { result.now ≡ more there_is signs.now }
{
    if there_is { signs } else { "" }
}
