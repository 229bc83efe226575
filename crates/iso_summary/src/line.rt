//! Lines that are written part by part.
ghost use Rattle.std.specs.Prelude.{◌≡◌, ◌<◌, ◌++◌, ◌∷◌, ◌==◌, cond, length, map};
ghost use Rattle.std.specs.Option.{option_map};
ghost use Rattle.iso_plan.specs.PathTexts.{path_text};
ghost use Rattle.iso_plan.specs.RowView.{tree_of};
ghost use Rattle.iso_summary.specs.Lines.{counted, failed_classes, file_option, line, number_option};
ghost use Rattle.iso_summary.specs.Parts.{part_text};
ghost use Rattle.iso_tap.specs.Printers.{Prints};

use crate::name::name;
use crate::part::Part;
use crate::shown_line::{shown, source};
use crate::word::file;
use iso_plan::plan::Plan;
use iso_tap::printer::Printer;
use iso_tap::sink::{Sink, SinkFailed};

/// Writes a line of parts.
pub(crate) fn line<W: Sink>(
    printer: &mut Printer<'_, W>,
    parts: &[Part<'_>],
) -> Result<(), SinkFailed>
    ensures { Prints printer.old printer.new (line (map part_text parts.now)) result }
{
    for part in parts {
        write_part(printer, part)?;
    }
    printer.bytes(b"\n")
}

/// Writes a line with the path of a node between these parts.
pub(crate) fn line_with_path<W: Sink>(
    printer: &mut Printer<'_, W>,
    before: &[Part<'_>],
    plan: &Plan,
    node: u32,
    after: &[Part<'_>],
) -> Result<(), SinkFailed>
    requires above { 0 < node }
    requires within { node < length plan.now.rows }
    ensures { Prints printer.old printer.new
        (line (map part_text before.now ++ path_text (tree_of plan.now) node
        ∷ map part_text after.now)) result }
{
    for part in before {
        write_part(printer, part)?;
    }
    printer.path(plan, node)?;
    line(printer, after)
}

/// Writes a part.
fn write_part<W: Sink>(printer: &mut Printer<'_, W>, part: &Part<'_>) -> Result<(), SinkFailed>
    ensures { Prints printer.old printer.new (part_text part.now) result }
{
    match *part {
        Part::Plain(text) => printer.bytes(text.as_bytes()),
        Part::Number(number) => printer.number(u64::from(number)),
        Part::Counted(count, one, many) => counted(printer, count, one, many),
        Part::FailedClasses(count) => failed_classes(printer, count),
        Part::Name(file) => name(printer, file),
        Part::Source(line) => source(printer, line),
        Part::Shown(text) => shown(printer, text.as_bytes()),
        Part::File(name) => file(printer, name),
        Part::FileOption(option, file) => file_option(printer, option, file),
        Part::NumberOption(option, number) => number_option(printer, option, number),
    }
}

/// Writes how many things there are.
fn counted<W: Sink>(
    printer: &mut Printer<'_, W>,
    count: u32,
    one: &str,
    many: &str,
) -> Result<(), SinkFailed>
    ensures { Prints printer.old printer.new (counted count one.now many.now) result }
{
    printer.number(u64::from(count))?;
    printer.bytes(word_for(count, one, many).as_bytes())
}

/// The word for one thing, or the word for several.
fn word_for<'a>(count: u32, one: &'a str, many: &'a str) -> &'a str
    ensures { result.now ≡ cond (count == 1) one.now many.now }
{
    if count == 1 { one } else { many }
}

/// Writes how many classes failed, and nothing where none did.
fn failed_classes<W: Sink>(printer: &mut Printer<'_, W>, count: u32) -> Result<(), SinkFailed>
    ensures { Prints printer.old printer.new (failed_classes count) result }
{
    if count == 0 {
        return Ok(());
    }
    printer.bytes(b"; ")?;
    counted(printer, count, " class", " classes")?;
    printer.bytes(b" not ok")
}

/// Writes an option with its file, and nothing where none was given.
fn file_option<W: Sink>(
    printer: &mut Printer<'_, W>,
    option: &str,
    given: Option<&str>,
) -> Result<(), SinkFailed>
    ensures { Prints printer.old printer.new
        (file_option option.now (option_map (λ f. f.now) given.entry)) result }
{
    match given {
        Some(name) => {
            printer.bytes(option.as_bytes())?;
            file(printer, name)
        }
        None => Ok(()),
    }
}

/// Writes an option with its number, and nothing where none was given.
fn number_option<W: Sink>(
    printer: &mut Printer<'_, W>,
    option: &str,
    given: Option<u32>,
) -> Result<(), SinkFailed>
    ensures { Prints printer.old printer.new (number_option option.now given) result }
{
    match given {
        Some(number) => {
            printer.bytes(option.as_bytes())?;
            printer.number(u64::from(number))
        }
        None => Ok(()),
    }
}
