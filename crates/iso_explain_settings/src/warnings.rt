//! Warnings: the first ten, and how many there are more.
ghost use Rattle.std.specs.Prelude.{◌≡◌, IfOk, OnOk, Some, map};
ghost use Rattle.iso_explain_settings.specs.Parts.{joined, part_text};
ghost use Rattle.iso_explain_settings.specs.Warnings.{line_in, more_warnings, warning_line, warnings_text};
ghost use Rattle.iso_explain_settings.specs.Warned.{warned};
ghost use Rattle.iso_explain_settings.specs.Unknown.{with_more, with_one};
ghost use Rattle.iso_settings.specs.Leaves.{leaves};
ghost use Rattle.iso_tap.specs.Pieces.{pieces_text};
ghost use Rattle.iso_tap.specs.Printers.{Prints};
ghost use Rattle.std.specs.Str.{IsUtf8};
ghost use Rattle.toml.specs.Data.{Members};
ghost use Rattle.toml.specs.Parse.{parse_document};

use crate::explain::read_table;
use crate::part::{Part, tell, write_parts};
use crate::warn::warn_table;
use iso_settings::settings::Settings;
use iso_tap::memory::MemorySink;
use iso_tap::printer::{Piece, Printer};
use iso_tap::sink::{Sink, SinkFailed};
use std::alloc::{AllocError, Global};
use std::marker::Model;

/// How many warnings are kept at most.
const KEPT: usize = 10;

/// What a warning is of.
#[derive(Clone, Copy)]
pub enum Place<'a> {
    File(&'a str),
    /// A line and a column of a file, both from 1 on.
    At(&'a str, u32, u32),
}

/// The first ten warnings, each as a line, and how many there are more.
#[derive(Drop)]
pub struct Warnings {
    alloc: Global,
    lines: Vec<MemorySink>,
    more: u64,
}

impl Model for Warnings {
    ghost use Rattle.std.specs.Prelude.{map};
    ghost use Rattle.iso_explain_settings.specs.Unknown.{Kept};
    ghost use Rattle.iso_explain_settings.specs.Warnings.{line_in};

    ghost Value = { Kept };

    ghost view = { λ w. (map line_in w.lines.items, w.more) };
}

impl Warnings {
    ghost use Rattle.std.specs.Prelude.{[]};

    /// No warnings.
    pub fn new(alloc: Global) -> Warnings
        ensures { result ≡ ([], 0) }
    {
        Warnings {
            alloc,
            lines: Vec::new(alloc),
            more: 0,
        }
    }

    /// Adds a warning: its text, of which nothing is escaped, behind its place. After running out
    /// of memory they are of no use.
    pub fn add(&mut self, place: Place<'_>, text: &[Piece<'_>]) -> Result<(), AllocError>
        ensures { OnOk result
            (self.new ≡ with_one self.old (warning_line place.entry (pieces_text text.now))) }
    {
        match place {
            Place::File(name) => self.add_in_file(name, text),
            Place::At(name, line, column) => self.add_at(name, line, column, text),
        }
    }

    /// Adds a warning of a file.
    fn add_in_file<'a>(&mut self, name: &'a str, text: &'a [Piece<'a>]) -> Result<(), AllocError>
        ensures { OnOk result (self.new ≡ with_one self.old
            (warning_line (Place.File name.entry) (pieces_text text.now))) }
    {
        self.add_line(&[
            Part::Plain("jtap: warning: "),
            Part::Name(name),
            Part::Plain(": "),
            Part::Pieces(text),
            Part::Plain("\n"),
        ])
    }

    /// Adds a warning of a place in a file.
    fn add_at<'a>(
        &mut self,
        name: &'a str,
        line: u32,
        column: u32,
        text: &'a [Piece<'a>],
    ) -> Result<(), AllocError>
        ensures { OnOk result (self.new ≡ with_one self.old
            (warning_line (Place.At name.entry line column) (pieces_text text.now))) }
    {
        self.add_line(&[
            Part::Plain("jtap: warning: "),
            Part::Name(name),
            Part::Plain(":"),
            Part::Number(u64::from(line)),
            Part::Plain(":"),
            Part::Number(u64::from(column)),
            Part::Plain(": "),
            Part::Pieces(text),
            Part::Plain("\n"),
        ])
    }

    /// Adds a warning as the line that these parts are.
    #[tactic(auto, unfolding(crate::specs::Unknown::with_one))]
    pub(crate) fn add_line(&mut self, parts: &[Part<'_>]) -> Result<(), AllocError>
        ensures { OnOk result (self.new ≡ with_one self.old (joined (map part_text parts.now))) }
    {
        if self.lines.len() < KEPT {
            self.lines.push(line(self.alloc, parts)?)?;
        } else {
            self.more = self.more.saturating_add(1);
        }
        Ok(())
    }

    /// Counts `more` warnings more.
    pub(crate) fn add_more(&mut self, more: u64)
        ensures { self.new ≡ with_more self.old more }
    {
        self.more = self.more.saturating_add(more);
    }

    /// Writes the warnings, and how many there are more.
    pub fn write<W: Sink>(&self, printer: &mut Printer<'_, W>) -> Result<(), SinkFailed>
        ensures { Prints printer.old printer.new (warnings_text self.now) result }
    {
        write_all(printer, self.lines.as_slice(), self.more)
    }
}

/// Adds a warning for each key whose value isn't used by the settings that were read from these
/// bytes, and for each key that begins as JUnit's do and is none of settings.
pub fn warn_settings(
    alloc: Global,
    name: &str,
    bytes: &[u8],
    settings: &Settings,
    warnings: &mut Warnings,
) -> Result<(), AllocError>
    ensures { (document : Members) → IsUtf8 bytes.now → parse_document bytes.now ≡ Some document
        → OnOk result (warnings.new ≡ warned warnings.old name.now
        (leaves document) settings.now.parallel) }
{
    match read_table(alloc, bytes)? {
        Some(table) => warn_table(alloc, name, &table, settings.parallel, warnings),
        None => Ok(()),
    }
}

/// Writes lines, and how many there are more.
fn write_all<W: Sink>(
    printer: &mut Printer<'_, W>,
    lines: &[MemorySink],
    more: u64,
) -> Result<(), SinkFailed>
    ensures { Prints printer.old printer.new (warnings_text (map line_in lines.now, more)) result }
{
    write_lines(printer, lines)?;
    write_more(printer, more)
}

/// A line of these parts.
fn line(alloc: Global, parts: &[Part<'_>]) -> Result<MemorySink, AllocError>
    ensures { IfOk result (λ line. line_in line ≡ joined (map part_text parts.now)) }
{
    let mut line = MemorySink::new(alloc);
    tell(&mut line, parts)?;
    Ok(line)
}

/// Writes lines.
fn write_lines<W: Sink>(
    printer: &mut Printer<'_, W>,
    lines: &[MemorySink],
) -> Result<(), SinkFailed>
    ensures { Prints printer.old printer.new (joined (map line_in lines.now)) result }
{
    for line in lines {
        printer.bytes(line.bytes())?;
    }
    Ok(())
}

/// Writes how many warnings there are more, if there are any.
fn write_more<W: Sink>(printer: &mut Printer<'_, W>, more: u64) -> Result<(), SinkFailed>
    ensures { Prints printer.old printer.new (more_warnings more) result }
{
    if more == 0 {
        return Ok(());
    }
    write_parts(
        printer,
        &[
            Part::Plain("jtap: warning: "),
            Part::Number(more),
            Part::Plain(" more\n"),
        ],
    )
}
