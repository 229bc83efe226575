//! The parts of a command.
ghost use Rattle.std.specs.Prelude.{◌++◌, codes, map};
ghost use Rattle.std.specs.Option.{option_map};
ghost use Rattle.iso_commands.specs.Lent.{lent};
ghost use Rattle.iso_commands.specs.Parts.{each_file, each_word, part_text, shard_option};
ghost use Rattle.iso_summary.specs.Lines.{file_option, line, number_option};
ghost use Rattle.iso_summary.specs.Words.{file_word, shell_word};
ghost use Rattle.iso_tap.specs.Printers.{Prints};

use iso_arguments::shard::Shard;
use iso_summary::word::{file, word};
use iso_tap::printer::Printer;
use iso_tap::sink::{Sink, SinkFailed};

/// A part of a command.
#[derive(Clone, Copy)]
pub(crate) enum Part<'a> {
    Plain(&'a str),
    File(&'a str),
    /// An option with its file, where one was given.
    FileOption(&'a str, Option<&'a str>),
    /// An option with its number, where one was given.
    NumberOption(&'a str, Option<u32>),
    /// An option once for each of these words.
    Words(&'a str, &'a [&'a str]),
    ShardOption(Option<Shard>),
    /// Each of these files, behind a space.
    Files(&'a [&'a str]),
}

/// Writes a line of parts.
pub(crate) fn line<W: Sink>(
    printer: &mut Printer<'_, W>,
    parts: &[Part<'_>],
) -> Result<(), SinkFailed>
    ensures { Prints printer.old printer.new (line (map part_text parts.now)) result }
{
    for part in parts {
        write_part(printer, part)?;
    }
    printer.bytes(b"\n")
}

/// Writes a part.
fn write_part<W: Sink>(printer: &mut Printer<'_, W>, part: &Part<'_>) -> Result<(), SinkFailed>
    ensures { Prints printer.old printer.new (part_text part.now) result }
{
    match *part {
        Part::Plain(text) => printer.bytes(text.as_bytes()),
        Part::File(name) => file(printer, name),
        Part::FileOption(option, name) => file_option(printer, option, name),
        Part::NumberOption(option, number) => number_option(printer, option, number),
        Part::Words(option, words) => each_word(printer, option, words),
        Part::ShardOption(shard) => shard_option(printer, shard),
        Part::Files(names) => each_file(printer, names),
    }
}

/// Writes an option with its file, and nothing where none was given.
fn file_option<W: Sink>(
    printer: &mut Printer<'_, W>,
    option: &str,
    given: Option<&str>,
) -> Result<(), SinkFailed>
    ensures { Prints printer.old printer.new
        (file_option option.now (option_map (λ f. f.now) given.entry)) result }
{
    match given {
        Some(name) => {
            printer.bytes(option.as_bytes())?;
            file(printer, name)
        }
        None => Ok(()),
    }
}

/// Writes an option with its number, and nothing where none was given.
fn number_option<W: Sink>(
    printer: &mut Printer<'_, W>,
    option: &str,
    given: Option<u32>,
) -> Result<(), SinkFailed>
    ensures { Prints printer.old printer.new (number_option option.now given) result }
{
    match given {
        Some(number) => {
            printer.bytes(option.as_bytes())?;
            printer.number(u64::from(number))
        }
        None => Ok(()),
    }
}

/// Writes an option once for each word.
fn each_word<W: Sink>(
    printer: &mut Printer<'_, W>,
    option: &str,
    words: &[&str],
) -> Result<(), SinkFailed>
    ensures { Prints printer.old printer.new (each_word option.now (lent words.now)) result }
{
    for given in words {
        one_word(printer, option, given)?;
    }
    Ok(())
}

/// Writes an option with a word.
fn one_word<W: Sink>(
    printer: &mut Printer<'_, W>,
    option: &str,
    given: &str,
) -> Result<(), SinkFailed>
    ensures { Prints printer.old printer.new (option.now ++ shell_word given.now) result }
{
    printer.bytes(option.as_bytes())?;
    word(printer, given.as_bytes())
}

/// Writes each file behind a space.
fn each_file<W: Sink>(printer: &mut Printer<'_, W>, names: &[&str]) -> Result<(), SinkFailed>
    ensures { Prints printer.old printer.new (each_file (lent names.now)) result }
{
    for name in names {
        one_file(printer, name)?;
    }
    Ok(())
}

/// Writes a file behind a space.
fn one_file<W: Sink>(printer: &mut Printer<'_, W>, name: &str) -> Result<(), SinkFailed>
    ensures { Prints printer.old printer.new (codes " " ++ file_word name.now) result }
{
    printer.bytes(b" ")?;
    file(printer, name)
}

/// Writes the option of a shard, and nothing where none was given.
fn shard_option<W: Sink>(
    printer: &mut Printer<'_, W>,
    given: Option<Shard>,
) -> Result<(), SinkFailed>
    ensures { Prints printer.old printer.new (shard_option given) result }
{
    match given {
        Some(shard) => {
            printer.bytes(b" --shard ")?;
            printer.number(u64::from(shard.number))?;
            printer.bytes(b"/")?;
            printer.number(u64::from(shard.of))
        }
        None => Ok(()),
    }
}
