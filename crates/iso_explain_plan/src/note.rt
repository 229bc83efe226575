//! Notes: lines that are written part by part.
ghost use Rattle.std.specs.Prelude.{◌≡◌, ◌++◌, codes, map};
ghost use Rattle.std.specs.Fmt.{decimal};
ghost use Rattle.iso_explain_plan.specs.Notes.{note};
ghost use Rattle.iso_explain_plan.specs.Parts.{known_place, node_part_text, node_text, part_text, place_text};
ghost use Rattle.iso_hints.specs.Pictures.{shown_byte};
ghost use Rattle.iso_plan.specs.RowView.{tree_of};
ghost use Rattle.iso_summary.specs.Lines.{line};
ghost use Rattle.iso_tap.specs.Printers.{Prints};

use crate::part::{NodePart, Part};
use iso_plan::plan::Plan;
use iso_script_lexer::token::Position;
use iso_summary::name::name;
use iso_tap::printer::{Piece, Printer};
use iso_tap::sink::{Sink, SinkFailed};

/// Writes a note of these parts.
pub(crate) fn note<W: Sink>(
    printer: &mut Printer<'_, W>,
    parts: &[Part<'_>],
) -> Result<(), SinkFailed>
    ensures { Prints printer.old printer.new (note (map part_text parts.now)) result }
{
    printer.bytes(b" = ")?;
    line(printer, parts)
}

/// Writes a line of parts.
fn line<W: Sink>(printer: &mut Printer<'_, W>, parts: &[Part<'_>]) -> Result<(), SinkFailed>
    ensures { Prints printer.old printer.new (line (map part_text parts.now)) result }
{
    for part in parts {
        write_part(printer, part)?;
    }
    printer.bytes(b"\n")
}

/// Writes a part.
fn write_part<W: Sink>(printer: &mut Printer<'_, W>, part: &Part<'_>) -> Result<(), SinkFailed>
    ensures { Prints printer.old printer.new (part_text part.now) result }
{
    match *part {
        Part::Plain(text) => printer.bytes(text.as_bytes()),
        Part::Number(number) => printer.number(number),
        Part::Shown(text) => shown(printer, text.as_bytes()),
        Part::Name(file) => name(printer, file),
        Part::Place(at) => place(printer, at),
    }
}

/// Writes bytes as they are shown.
fn shown<W: Sink>(printer: &mut Printer<'_, W>, bytes: &[u8]) -> Result<(), SinkFailed>
    ensures { Prints printer.old printer.new (map shown_byte bytes.now) result }
{
    for byte in bytes {
        printer.bytes(&[shown_byte(*byte)])?;
    }
    Ok(())
}

/// A byte as it is shown.
fn shown_byte(byte: u8) -> u8
    ensures { result ≡ shown_byte byte }
{
    match byte {
        b'\t' => b' ',
        b' '..=b'~' => byte,
        _ => b'?',
    }
}

/// Writes a place behind a file's name.
fn place<W: Sink>(printer: &mut Printer<'_, W>, place: Option<Position>) -> Result<(), SinkFailed>
    ensures { Prints printer.old printer.new (place_text place) result }
{
    match place {
        Some(at) => known_place(printer, at),
        None => Ok(()),
    }
}

/// Writes a place that is known.
fn known_place<W: Sink>(printer: &mut Printer<'_, W>, at: Position) -> Result<(), SinkFailed>
    ensures { Prints printer.old printer.new (known_place at) result }
{
    printer.pieces(&[
        Piece::Plain(b":"),
        Piece::Number(at.line as u64),
        Piece::Plain(b":"),
        Piece::Number(at.column as u64),
    ])
}

/// Writes a note about nodes of a plan.
pub(crate) fn node_note<W: Sink>(
    printer: &mut Printer<'_, W>,
    plan: &Plan,
    parts: &[NodePart<'_>],
) -> Result<(), SinkFailed>
    ensures { Prints printer.old printer.new
        (note (map (node_part_text (tree_of plan.now)) parts.now)) result }
{
    printer.bytes(b" = ")?;
    node_line(printer, plan, parts)
}

/// Writes a line of parts about nodes of a plan.
fn node_line<W: Sink>(
    printer: &mut Printer<'_, W>,
    plan: &Plan,
    parts: &[NodePart<'_>],
) -> Result<(), SinkFailed>
    ensures { Prints printer.old printer.new
        (line (map (node_part_text (tree_of plan.now)) parts.now)) result }
{
    for part in parts {
        write_node_part(printer, plan, part)?;
    }
    printer.bytes(b"\n")
}

/// Writes a part about nodes of a plan.
fn write_node_part<W: Sink>(
    printer: &mut Printer<'_, W>,
    plan: &Plan,
    part: &NodePart<'_>,
) -> Result<(), SinkFailed>
    ensures { Prints printer.old printer.new (node_part_text (tree_of plan.now) part.now) result }
{
    match *part {
        NodePart::Of(part) => write_part(printer, &part),
        NodePart::Node(number) => node(printer, plan, number),
    }
}

/// Writes the path of a node, or its number where it has none.
fn node<W: Sink>(printer: &mut Printer<'_, W>, plan: &Plan, number: u32) -> Result<(), SinkFailed>
    ensures { Prints printer.old printer.new (node_text (tree_of plan.now) number) result }
{
    if number > 0 && number < plan.len() {
        printer.path(plan, number)
    } else {
        numbered(printer, number)
    }
}

/// Writes the number of a node.
fn numbered<W: Sink>(printer: &mut Printer<'_, W>, number: u32) -> Result<(), SinkFailed>
    ensures { Prints printer.old printer.new (codes "node " ++ decimal number) result }
{
    printer.pieces(&[Piece::Plain(b"node "), Piece::Number(number as u64)])
}
