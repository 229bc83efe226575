//! What there may be at most.
ghost use Rattle.std.specs.Prelude.{◌≡◌};
ghost use Rattle.iso_explain.specs.Bounds.{bound_note, display_note, kind_note, limit_note, limit_words, number_note, token_note};
ghost use Rattle.iso_tap.specs.Printers.{Prints};

use crate::note::note;
use iso_model::limits::{DISPLAY_BYTES, NAME_BYTES, TEXT_BYTES};
use iso_script::explain::{Limit, Reason};
use iso_script_statements::fault::ScriptFaultKind;
use iso_tap::printer::{Piece, Printer};
use iso_tap::sink::{Sink, SinkFailed};

/// Writes what there may be at most, where a fault goes beyond it.
pub(crate) fn bound<W: Sink>(
    printer: &mut Printer<'_, W>,
    kind: ScriptFaultKind,
    reason: Reason<'_>,
) -> Result<(), SinkFailed>
    ensures { Prints printer.old printer.new (bound_note kind reason.entry) result }
{
    match reason {
        Reason::Kind | Reason::Unmet(_) => of_kind(printer, kind),
        Reason::Beyond(limit) => of_limit(printer, limit),
    }
}

/// Writes a limit.
fn of_limit<W: Sink>(printer: &mut Printer<'_, W>, limit: Limit) -> Result<(), SinkFailed>
    ensures { Prints printer.old printer.new (limit_note limit) result }
{
    note(
        printer,
        &[
            Piece::Plain(b"at most "),
            Piece::Number(limit.most() as u64),
            Piece::Plain(limit_words(limit).as_bytes()),
        ],
    )
}

/// What is limited in number.
fn limit_words(limit: Limit) -> &'static str
    ensures { result.now ≡ limit_words limit }
{
    match limit {
        Limit::Classes => " classes stand in one another",
        Limit::Bodies => " bodies stand in one another",
        Limit::Parentheses => " parentheses are open at once",
        Limit::Operands => " operands stand in one chain",
        Limit::KeyBytes => " bytes stand in a key",
        Limit::ScriptBytes => " bytes stand in a script",
    }
}

/// Writes what is allowed where a fault of this kind is, and nothing of other kinds.
fn of_kind<W: Sink>(printer: &mut Printer<'_, W>, kind: ScriptFaultKind) -> Result<(), SinkFailed>
    ensures { Prints printer.old printer.new (kind_note kind) result }
{
    match kind {
        ScriptFaultKind::NumberTooBig => number_bounds(printer),
        ScriptFaultKind::TooLong => token_bounds(printer),
        ScriptFaultKind::BadDisplay => display_bounds(printer),
        _ => Ok(()),
    }
}

/// Writes how big a number may be.
fn number_bounds<W: Sink>(printer: &mut Printer<'_, W>) -> Result<(), SinkFailed>
    ensures { Prints printer.old printer.new number_note result }
{
    note(
        printer,
        &[
            Piece::Plain(b"at most "),
            Piece::Number(i64::MAX as u64),
            Piece::Plain(b", after the minus of a literal "),
            Piece::Number(1 << 63),
        ],
    )
}

/// Writes how long a name and a text may be.
fn token_bounds<W: Sink>(printer: &mut Printer<'_, W>) -> Result<(), SinkFailed>
    ensures { Prints printer.old printer.new token_note result }
{
    note(
        printer,
        &[
            Piece::Plain(b"at most "),
            Piece::Number(NAME_BYTES as u64),
            Piece::Plain(b" bytes stand in a name, and "),
            Piece::Number(TEXT_BYTES as u64),
            Piece::Plain(b" in a text"),
        ],
    )
}

/// Writes how a display text or a reason is written.
fn display_bounds<W: Sink>(printer: &mut Printer<'_, W>) -> Result<(), SinkFailed>
    ensures { Prints printer.old printer.new display_note result }
{
    note(
        printer,
        &[
            Piece::Plain(b"a display text and a reason have 1 to "),
            Piece::Number(DISPLAY_BYTES as u64),
            Piece::Plain(b" bytes, and no space at either end"),
        ],
    )
}
