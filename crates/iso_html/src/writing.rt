//! Texts that are written part by part.
ghost use Rattle.std.specs.Prelude.{◌≡◌, map};
ghost use Rattle.std.specs.Option.{option_map};
ghost use Rattle.iso_html.specs.Parts.{chain_name, hundredths, key_text, link_text, next_text, node_text, part_text, seconds, tenths};
ghost use Rattle.iso_junit.specs.Escapes.{escaped};
ghost use Rattle.iso_junit.specs.Texts.{joined};
ghost use Rattle.iso_plan.specs.RowView.{tree_of};
ghost use Rattle.iso_summary.specs.Lines.{file_option, number_option};
ghost use Rattle.iso_tap.specs.Printers.{Prints};

use crate::part::Part;
use crate::word::file;
use iso_junit::escape::escaped;
use iso_junit::part::Part as Piece;
use iso_junit::path::path;
use iso_junit::seconds::six_digits;
use iso_junit::writing::parts_with_path;
use iso_plan::plan::Plan;
use iso_stats::figures::Link;
use iso_tap::printer::{Piece as Bytes, Printer};
use iso_tap::sink::{Sink, SinkFailed};

/// Writes parts, one after another.
pub(crate) fn write_parts<W: Sink>(
    printer: &mut Printer<'_, W>,
    plan: &Plan,
    parts: &[Part<'_>],
) -> Result<(), SinkFailed>
    ensures { Prints printer.old printer.new
        (joined (map (part_text (tree_of plan.now)) parts.now)) result }
{
    for part in parts {
        write_part(printer, plan, part)?;
    }
    Ok(())
}

/// Writes a part.
fn write_part<W: Sink>(
    printer: &mut Printer<'_, W>,
    plan: &Plan,
    part: &Part<'_>,
) -> Result<(), SinkFailed>
    ensures { Prints printer.old printer.new (part_text (tree_of plan.now) part.now) result }
{
    match *part {
        Part::Plain(text) => printer.bytes(text.as_bytes()),
        Part::Number(number) => printer.number(number),
        Part::Seconds(nanos) => seconds(printer, nanos / 1_000),
        Part::Micros(micros) => seconds(printer, micros),
        Part::Tenths(number) => tenths(printer, number),
        Part::Hundredths(number) => hundredths(printer, number),
        Part::Node(number) => node(printer, plan, number),
        Part::Link(number) => anchor(printer, plan, number),
        Part::Next(number) => next(printer, plan, number),
        Part::Chain(found) => chain(printer, plan, found),
        Part::Key(number) => escaped(printer, key(plan, number).as_bytes()),
        Part::FileOption(option, name) => file_option(printer, option, name),
        Part::NumberOption(option, number) => number_option(printer, option, number),
        Part::File(name) => file(printer, name),
    }
}

/// Writes microseconds as seconds.
fn seconds<W: Sink>(printer: &mut Printer<'_, W>, micros: u64) -> Result<(), SinkFailed>
    ensures { Prints printer.old printer.new (seconds micros) result }
{
    printer.pieces(&[
        Bytes::Number(micros / 1_000_000),
        Bytes::Plain(b"."),
        Bytes::Plain(&six_digits(micros % 1_000_000)),
        Bytes::Plain(b" s"),
    ])
}

/// Writes tenths as a number with one decimal.
fn tenths<W: Sink>(printer: &mut Printer<'_, W>, number: u64) -> Result<(), SinkFailed>
    ensures { Prints printer.old printer.new (tenths number) result }
{
    printer.pieces(&[
        Bytes::Number(number / 10),
        Bytes::Plain(b"."),
        Bytes::Number(number % 10),
    ])
}

/// Writes hundredths as a number with two decimals.
fn hundredths<W: Sink>(printer: &mut Printer<'_, W>, number: u64) -> Result<(), SinkFailed>
    ensures { Prints printer.old printer.new (hundredths number) result }
{
    printer.pieces(&[
        Bytes::Number(number / 100),
        Bytes::Plain(b"."),
        Bytes::Number(number / 10 % 10),
        Bytes::Number(number % 10),
    ])
}

/// Writes a node's path.
fn node<W: Sink>(printer: &mut Printer<'_, W>, plan: &Plan, number: u32) -> Result<(), SinkFailed>
    ensures { Prints printer.old printer.new (node_text (tree_of plan.now) number) result }
{
    if number == 0 || plan.len() <= number {
        return printer.bytes(b"top level");
    }
    path(printer, plan, number)
}

/// Writes a node's path as a link to the node in the tree.
fn anchor<W: Sink>(printer: &mut Printer<'_, W>, plan: &Plan, number: u32) -> Result<(), SinkFailed>
    ensures { Prints printer.old printer.new (link_text (tree_of plan.now) number) result }
{
    if number == 0 || plan.len() <= number {
        return printer.bytes(b"top level");
    }
    parts_with_path(
        printer,
        &[
            Piece::Plain("<a href=\"#n"),
            Piece::Number(number),
            Piece::Plain("\">"),
        ],
        plan,
        number,
        &[Piece::Plain("</a>")],
    )
}

/// Writes a comma and a link to a node, and nothing where there is none.
fn next<W: Sink>(
    printer: &mut Printer<'_, W>,
    plan: &Plan,
    number: Option<u32>,
) -> Result<(), SinkFailed>
    ensures { Prints printer.old printer.new (next_text (tree_of plan.now) number) result }
{
    match number {
        Some(number) => {
            printer.bytes(b", ")?;
            anchor(printer, plan, number)
        }
        None => Ok(()),
    }
}

/// Writes what makes a chain.
fn chain<W: Sink>(printer: &mut Printer<'_, W>, plan: &Plan, link: Link) -> Result<(), SinkFailed>
    ensures { Prints printer.old printer.new (chain_name (tree_of plan.now) link) result }
{
    match link {
        Link::Key(number) => escaped(printer, key(plan, number).as_bytes()),
        Link::Class(class) => anchor(printer, plan, class),
    }
}

/// A key by its number.
fn key(plan: &Plan, number: u32) -> &str
    ensures { result.now ≡ key_text (tree_of plan.now) number }
{
    if number < plan.key_count() {
        plan.key(number)
    } else {
        ""
    }
}

/// Writes an option with its file, and nothing where none was given.
fn file_option<W: Sink>(
    printer: &mut Printer<'_, W>,
    option: &str,
    given: Option<&str>,
) -> Result<(), SinkFailed>
    ensures { Prints printer.old printer.new
        (escaped (file_option option.now (option_map (λ f. f.now) given.entry))) result }
{
    match given {
        Some(name) => {
            escaped(printer, option.as_bytes())?;
            file(printer, name)
        }
        None => Ok(()),
    }
}

/// Writes an option with its number, and nothing where none was given.
fn number_option<W: Sink>(
    printer: &mut Printer<'_, W>,
    option: &str,
    given: Option<u32>,
) -> Result<(), SinkFailed>
    ensures { Prints printer.old printer.new (number_option option.now given) result }
{
    match given {
        Some(number) => {
            printer.bytes(option.as_bytes())?;
            printer.number(u64::from(number))
        }
        None => Ok(()),
    }
}
