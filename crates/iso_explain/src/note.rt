//! The lines below the picture: what was meant, and what belongs to the fault elsewhere.
ghost use Rattle.std.specs.Prelude.{◌≡◌, option_map};
ghost use Rattle.iso_explain.specs.Notes.{brace_note, closes_early, did_you_mean, first_note, is_end, lacks_brace, mending_note, open_text, tells_brace};
ghost use Rattle.iso_hints.specs.Pictures.{hint_line};
ghost use Rattle.iso_tap.specs.Pieces.{pieces_text};
ghost use Rattle.iso_tap.specs.Printers.{Prints};

use crate::find::{is_of_class, symbol_found};
use crate::met::{Found, found_of};
use crate::want::{is_body, is_symbol, symbol_wanted};
use iso_hints::picture::write_hint;
use iso_script::explain::{Explained, Reason, Wanted};
use iso_script_lexer::symbol::Symbol;
use iso_script_lexer::token::Position;
use iso_script_statements::fault::ScriptFaultKind;
use iso_tap::printer::{Piece, Printer};
use iso_tap::sink::{Sink, SinkFailed};

/// Writes a line of these pieces below a picture.
pub(crate) fn note<W: Sink>(
    printer: &mut Printer<'_, W>,
    pieces: &[Piece<'_>],
) -> Result<(), SinkFailed>
    ensures { Prints printer.old printer.new (hint_line (pieces_text pieces.now)) result }
{
    printer.bytes(b" = ")?;
    printer.pieces(pieces)?;
    printer.bytes(b"\n")
}

/// Writes what mends a fault: a hint, or else what was meant, or else what else is told.
pub(crate) fn mending<W: Sink>(
    printer: &mut Printer<'_, W>,
    hint: Option<&str>,
    meant: Option<&str>,
    other: Option<&str>,
) -> Result<(), SinkFailed>
    ensures { Prints printer.old printer.new
        (mending_note (option_map (λ h. h.now) hint.entry) (option_map (λ w. w.now) meant.entry)
        (option_map (λ t. t.now) other.entry)) result }
{
    if let Some(hint) = hint {
        return write_hint(printer, hint);
    }
    if let Some(word) = meant {
        return did_you_mean(printer, word);
    }
    match other {
        Some(text) => write_hint(printer, text),
        None => Ok(()),
    }
}

/// Writes what was meant.
fn did_you_mean<W: Sink>(printer: &mut Printer<'_, W>, word: &str) -> Result<(), SinkFailed>
    ensures { Prints printer.old printer.new (hint_line (did_you_mean word.now)) result }
{
    note(
        printer,
        &[
            Piece::Plain(b"did you mean `"),
            Piece::Plain(word.as_bytes()),
            Piece::Plain(b"`?"),
        ],
    )
}

/// Writes where something stands first.
pub(crate) fn first<W: Sink>(
    printer: &mut Printer<'_, W>,
    first: Option<Position>,
) -> Result<(), SinkFailed>
    ensures { Prints printer.old printer.new (first_note first) result }
{
    match first {
        Some(at) => note(
            printer,
            &[
                Piece::Plain(b"first at "),
                Piece::Number(at.line as u64),
                Piece::Plain(b":"),
                Piece::Number(at.column as u64),
            ],
        ),
        None => Ok(()),
    }
}

/// Writes which brace is open, where one is and that is to be told.
pub(crate) fn brace<W: Sink>(
    printer: &mut Printer<'_, W>,
    explained: &Explained<'_>,
) -> Result<(), SinkFailed>
    ensures { Prints printer.old printer.new (brace_note explained.now) result }
{
    if !tells_brace(explained.fault.kind, explained.reason) {
        return Ok(());
    }
    match explained.brace {
        Some(at) => open_at(printer, at),
        None => Ok(()),
    }
}

/// Writes that the brace at this position is open.
fn open_at<W: Sink>(printer: &mut Printer<'_, W>, at: Position) -> Result<(), SinkFailed>
    ensures { Prints printer.old printer.new (hint_line (open_text at)) result }
{
    note(
        printer,
        &[
            Piece::Plain(b"the brace at "),
            Piece::Number(at.line as u64),
            Piece::Plain(b":"),
            Piece::Number(at.column as u64),
            Piece::Plain(b" is open"),
        ],
    )
}

/// Whether the open brace is to be told: the script ends, or what is found tells that a brace is
/// missing.
fn tells_brace(kind: ScriptFaultKind, reason: Reason<'_>) -> bool
    ensures { result ≡ tells_brace kind reason.entry }
{
    match reason {
        Reason::Unmet(unmet) => is_end(kind) || lacks_brace(unmet.wanted, found_of(unmet.found)),
        Reason::Kind | Reason::Beyond(_) => is_end(kind),
    }
}

/// Whether the script ends.
fn is_end(kind: ScriptFaultKind) -> bool
    ensures { result ≡ is_end kind }
{
    matches!(kind, ScriptFaultKind::EndOfInput)
}

/// Whether a brace is closed where something else is wanted than a `;`, or what stands outside of
/// bodies is found in one.
fn lacks_brace(wanted: Wanted, found: Found) -> bool
    ensures { result ≡ lacks_brace wanted found }
{
    closes_early(wanted, found) || (is_body(wanted) && is_of_class(found))
}

/// Whether a brace is closed where something else is wanted than a `;`.
fn closes_early(wanted: Wanted, found: Found) -> bool
    ensures { result ≡ closes_early wanted found }
{
    is_symbol(Symbol::CloseBrace, symbol_found(found))
        && !is_symbol(Symbol::Semicolon, symbol_wanted(wanted))
}
