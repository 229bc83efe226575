//! What is told, as text.
ghost use Rattle.std.specs.Prelude.{◌≡◌, ◌++◌, flat_map, map};
ghost use Rattle.std.specs.Option.{option_copied, option_map};
ghost use Rattle.iso_affected.specs.Counting.{AreFew};
ghost use Rattle.iso_affected_text.specs.Rows.{row_of, spot_of};
ghost use Rattle.iso_affected_text.specs.Texts.{affected_text, became_word, block_line, block_word, last_lines, last_of, missing_line, missing_words, part_word, row_text, rows_text, spots_text, tests_line};
ghost use Rattle.iso_tap.specs.Printers.{Prints, Writes};

use crate::row::{Became, Block, Part, Row, Spot};
use crate::word::{Word, words};
use iso_affected::counts::Counts;
use iso_tap::fault::TapFault;
use iso_tap::printer::Printer;
use iso_tap::sink::{Sink, SinkFailed};

/// What is told at the end.
#[derive(Clone, Copy)]
pub struct Last<'a> {
    pub counts: Counts,
    /// The folder of the old suite.
    pub folder: &'a str,
    /// How many files weren't there.
    pub missing: u32,
}

/// Writes rows, and behind them how many tests have which fate. Takes no memory.
///
/// The sink is asked again where it takes only some bytes, and no more once it has failed.
pub fn write_affected<W: Sink>(
    rows: &[Row<'_>],
    last: &Last<'_>,
    sink: &mut W,
) -> Result<(), TapFault>
    requires { AreFew last.now.counts }
    ensures { Writes (W.account sink.old) (W.account sink.new)
        (affected_text (map row_of rows.now) (last_of last.now)) result }
{
    let mut printer = Printer::new(sink);
    match affected(&mut printer, rows, last) {
        Ok(()) => Ok(()),
        Err(_) => Err(TapFault {
            written: printer.written(),
        }),
    }
}

/// Writes rows, and what is told at the end.
fn affected<W: Sink>(
    printer: &mut Printer<'_, W>,
    rows: &[Row<'_>],
    last: &Last<'_>,
) -> Result<(), SinkFailed>
    requires { AreFew last.now.counts }
    ensures { Prints printer.old printer.new
        (affected_text (map row_of rows.now) (last_of last.now)) result }
{
    all(printer, rows)?;
    last_lines(printer, last)
}

/// Writes rows, one after another.
fn all<W: Sink>(printer: &mut Printer<'_, W>, rows: &[Row<'_>]) -> Result<(), SinkFailed>
    ensures { Prints printer.old printer.new (rows_text (map row_of rows.now)) result }
{
    for row in rows {
        write_row(printer, row)?;
    }
    Ok(())
}

/// Writes a row.
fn write_row<W: Sink>(printer: &mut Printer<'_, W>, row: &Row<'_>) -> Result<(), SinkFailed>
    ensures { Prints printer.old printer.new (row_text (row_of row.now)) result }
{
    match *row {
        Row::Node { became, path } => words(
            printer,
            &[
                Word::Plain(became_word(became)),
                Word::Plain(path),
                Word::Plain("\n"),
            ],
        ),
        Row::Part { part, name, of } => words(
            printer,
            &[
                Word::Plain(part_word(part)),
                Word::Optional(" ", name),
                Word::Optional(" of ", of),
                Word::Plain("\n"),
            ],
        ),
        Row::Block {
            block,
            of,
            now,
            before,
        } => block_line(printer, block, of, now, before),
        Row::Start { key, of, property } => words(
            printer,
            &[
                Word::Plain("  start of "),
                Word::Plain(key),
                Word::Optional(" of ", of),
                Word::Optional(": ", property),
                Word::Plain("\n"),
            ],
        ),
    }
}

/// Writes where a block differs first.
fn block_line<'a, W: Sink>(
    printer: &mut Printer<'_, W>,
    block: Block,
    of: Option<&'a str>,
    now: Option<Spot<'a>>,
    before: Option<Spot<'a>>,
) -> Result<(), SinkFailed>
    ensures { Prints printer.old printer.new
        (block_line block (option_copied of.entry) (option_map spot_of now.entry)
        (option_map spot_of before.entry)) result }
{
    let head = [
        Word::Plain("  "),
        Word::Plain(block_word(block)),
        Word::Optional(" of ", of),
    ];
    words(printer, &head)?;
    spots(printer, now, before)
}

/// Writes the rest of the line of a block: where it differs now, and where it did before.
fn spots<'a, W: Sink>(
    printer: &mut Printer<'_, W>,
    now: Option<Spot<'a>>,
    before: Option<Spot<'a>>,
) -> Result<(), SinkFailed>
    ensures { Prints printer.old printer.new
        (spots_text (option_map spot_of now.entry) (option_map spot_of before.entry)) result }
{
    match (now, before) {
        (Some(now), Some(was)) => words(
            printer,
            &[
                Word::Plain(": "),
                Word::Name(now.file),
                Word::Plain(":"),
                Word::Number(now.line),
                Word::Plain(": was "),
                Word::Other(now.script != was.script, was.file),
                Word::Number(was.line),
                Word::Plain(": "),
                Word::Source(now.source),
                Word::Plain("\n"),
            ],
        ),
        (Some(now), None) => words(
            printer,
            &[
                Word::Plain(": "),
                Word::Name(now.file),
                Word::Plain(":"),
                Word::Number(now.line),
                Word::Plain(": new: "),
                Word::Source(now.source),
                Word::Plain("\n"),
            ],
        ),
        (None, Some(was)) => words(
            printer,
            &[
                Word::Plain(": was "),
                Word::Name(was.file),
                Word::Plain(":"),
                Word::Number(was.line),
                Word::Plain(": "),
                Word::Source(was.source),
                Word::Plain("\n"),
            ],
        ),
        (None, None) => printer.bytes(b"\n"),
    }
}

/// The word of what became of a node.
fn became_word(became: Became) -> &'static str
    ensures { result.now ≡ became_word became }
{
    match became {
        Became::Changed => "changed ",
        Became::New => "new ",
        Became::Gone => "gone ",
    }
}

/// The words of a part.
fn part_word(part: Part) -> &'static str
    ensures { result.now ≡ part_word part }
{
    match part {
        Part::NowTest => "  was a class",
        Part::NowClass => "  was a test",
        Part::Marks => "  marks",
        Part::Disabled => "  disabled",
        Part::Static => "  static",
        Part::Field => "  field",
    }
}

/// The word of a block.
fn block_word(block: Block) -> &'static str
    ensures { result.now ≡ block_word block }
{
    match block {
        Block::Test => "test",
        Block::Class(kind) => kind.word(),
    }
}

/// Writes how many tests have which fate, and how many files weren't there.
fn last_lines<W: Sink>(printer: &mut Printer<'_, W>, last: &Last<'_>) -> Result<(), SinkFailed>
    requires { AreFew last.now.counts }
    ensures { Prints printer.old printer.new (last_lines (last_of last.now)) result }
{
    tests_line(printer, last)?;
    missing_line(printer, last)
}

/// Writes how many tests have which fate.
fn tests_line<W: Sink>(printer: &mut Printer<'_, W>, last: &Last<'_>) -> Result<(), SinkFailed>
    requires { AreFew last.now.counts }
    ensures { Prints printer.old printer.new (tests_line (last_of last.now)) result }
{
    let counts = last.counts;
    let other = counts.changed + counts.new + counts.gone;
    words(
        printer,
        &[
            Word::Number(other),
            Word::Plain(" of "),
            Word::Number(other + counts.same),
            Word::Plain(" tests can have another result than in "),
            Word::Name(last.folder),
            Word::Plain(": "),
            Word::Number(counts.changed),
            Word::Plain(" changed, "),
            Word::Number(counts.new),
            Word::Plain(" new, "),
            Word::Number(counts.gone),
            Word::Plain(" gone; "),
            Word::Number(counts.same),
            Word::Plain(" have the same, by proof\n"),
        ],
    )
}

/// Writes how many files weren't there, if some weren't.
fn missing_line<W: Sink>(printer: &mut Printer<'_, W>, last: &Last<'_>) -> Result<(), SinkFailed>
    ensures { Prints printer.old printer.new (missing_line (last_of last.now)) result }
{
    if last.missing == 0 {
        return Ok(());
    }
    words(
        printer,
        &[
            Word::Number(u64::from(last.missing)),
            Word::Plain(missing_words(last.missing)),
            Word::Name(last.folder),
            Word::Plain("\n"),
        ],
    )
}

/// The words between how many files weren't there and where.
fn missing_words(count: u32) -> &'static str
    ensures { result.now ≡ missing_words count }
{
    if count == 1 {
        " file isn't in "
    } else {
        " files aren't in "
    }
}
