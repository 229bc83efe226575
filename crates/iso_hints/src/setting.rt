//! Settings as they are told: each with its value and where this is from, and what they come to.
ghost use Rattle.std.specs.Prelude.{◌≡◌, ◌==◌, cond, codes};
ghost use Rattle.iso_hints.specs.Settings.{flag_text, origin_text, set_line, setting_line, unset_line, value_text, workers_line, workers_word};
ghost use Rattle.iso_tap.specs.Printers.{Prints};

use iso_tap::printer::{Piece, Printer};
use iso_tap::sink::{Sink, SinkFailed};

/// The value of a setting.
#[derive(Clone, Copy)]
pub enum Value<'a> {
    Flag(bool),
    Number(u32),
    Word(&'a str),
}

/// Where the value of a setting is from.
#[derive(Clone, Copy)]
pub enum Origin<'a> {
    Default,
    File,
    /// The file, but it isn't used, and why.
    Unused(&'a str),
}

/// A setting.
#[derive(Clone, Copy)]
pub struct Setting<'a> {
    pub key: &'a str,
    /// A key without a default may have none.
    pub value: Option<Value<'a>>,
    pub origin: Origin<'a>,
}

/// Writes a setting as a line.
pub fn write_setting<W: Sink>(
    printer: &mut Printer<'_, W>,
    setting: &Setting<'_>,
) -> Result<(), SinkFailed>
    ensures { Prints printer.old printer.new (setting_line setting.now) result }
{
    match &setting.value {
        Some(value) => set_line(printer, setting.key, value, &setting.origin),
        None => unset_line(printer, setting.key),
    }
}

/// Writes how many workers there are, and why.
pub fn write_workers<W: Sink>(
    printer: &mut Printer<'_, W>,
    count: u32,
    why: &[Piece<'_>],
) -> Result<(), SinkFailed>
    ensures { Prints printer.old printer.new (workers_line count why.now) result }
{
    printer.number(u64::from(count))?;
    printer.bytes(workers_word(count))?;
    printer.pieces(why)?;
    printer.bytes(b"\n")
}

/// The word for `count` workers.
fn workers_word(count: u32) -> &'static [u8]
    ensures { result.now ≡ workers_word count }
{
    if count == 1 {
        b" worker: "
    } else {
        b" workers: "
    }
}

/// Writes a setting that has a value.
fn set_line<W: Sink>(
    printer: &mut Printer<'_, W>,
    key: &str,
    value: &Value<'_>,
    origin: &Origin<'_>,
) -> Result<(), SinkFailed>
    ensures { Prints printer.old printer.new (set_line key.now value.now origin.now) result }
{
    printer.pieces(&[Piece::Plain(key.as_bytes()), Piece::Plain(b" = ")])?;
    value_text(printer, value)?;
    origin_text(printer, origin)?;
    printer.bytes(b"\n")
}

/// Writes a setting without a value.
fn unset_line<W: Sink>(printer: &mut Printer<'_, W>, key: &str) -> Result<(), SinkFailed>
    ensures { Prints printer.old printer.new (unset_line key.now) result }
{
    printer.pieces(&[Piece::Plain(key.as_bytes()), Piece::Plain(b" not set\n")])
}

/// Writes a value as TOML has it.
fn value_text<W: Sink>(printer: &mut Printer<'_, W>, value: &Value<'_>) -> Result<(), SinkFailed>
    ensures { Prints printer.old printer.new (value_text value.now) result }
{
    match *value {
        Value::Flag(flag) => printer.bytes(flag_text(flag)),
        Value::Number(number) => printer.number(u64::from(number)),
        Value::Word(word) => printer.pieces(&[
            Piece::Plain(b"\""),
            Piece::Plain(word.as_bytes()),
            Piece::Plain(b"\""),
        ]),
    }
}

/// A truth value as TOML has it.
fn flag_text(flag: bool) -> &'static [u8]
    ensures { result.now ≡ flag_text flag }
{
    if flag { b"true" } else { b"false" }
}

/// Writes where a value is from.
fn origin_text<W: Sink>(printer: &mut Printer<'_, W>, origin: &Origin<'_>) -> Result<(), SinkFailed>
    ensures { Prints printer.old printer.new (origin_text origin.now) result }
{
    match *origin {
        Origin::Default => printer.bytes(b" (default)"),
        Origin::File => printer.bytes(b" (file)"),
        Origin::Unused(why) => printer.pieces(&[
            Piece::Plain(b" (file, not used: "),
            Piece::Plain(why.as_bytes()),
            Piece::Plain(b")"),
        ]),
    }
}
