//! What is told of bytes that are no TOML document.
ghost use Rattle.std.specs.Prelude.{◌≡◌, ◌≤◌, ◌||◌, IfOk, None, OnOk, length, map, option_map, slice_get};
ghost use Rattle.std.specs.Str.{IsUtf8};
ghost use Rattle.iso_explain_settings.specs.Refusals.{IsRefusal, begins_word, encoding_fault, head_text, is_utf16, last_text, quotes_hint, refusal_text};
ghost use Rattle.iso_explain_settings.specs.Told.{Adds, hint_note};
ghost use Rattle.iso_hints.specs.Pictures.{shown_byte};
ghost use Rattle.iso_tap.specs.Sinks.{Wrote};
ghost use Rattle.toml.specs.Parse.{parse_document};

use crate::note::mending;
use crate::part::{Part, Picture, shown_byte, tell};
use crate::place::{column, line_at, line_number, narrowed};
use iso_tap::memory::MemorySink;
use std::alloc::{AllocError, Global};

/// What the parser says of a document.
#[derive(Clone, Copy)]
struct Refusal<'a> {
    /// The bytes from here on, up to the end, are refused.
    start: usize,
    end: usize,
    message: &'a str,
}

/// Adds what mends bytes that are no TOML document: where the parser stops, and why.
pub(crate) fn explain_refusal(
    alloc: Global,
    name: &str,
    bytes: &[u8],
    text: &mut MemorySink,
) -> Result<(), AllocError>
    ensures { (IsUtf8 bytes.now → parse_document bytes.now ≡ None)
        → OnOk result (Adds text.old text.new (IsRefusal name.now bytes.now)) }
{
    let Err(error) = toml::table_from_slice(alloc, bytes) else {
        return Ok(());
    };
    let Some(span) = error.span() else {
        return Err(AllocError);
    };
    let refusal = Refusal {
        start: span.start,
        end: span.end,
        message: error.message(),
    };
    tell_refusal(alloc, name, bytes, &refusal, text)
}

/// Adds where the parser stops, why, and what mends it.
fn tell_refusal<'a>(
    alloc: Global,
    name: &'a str,
    bytes: &'a [u8],
    refusal: &Refusal<'a>,
    text: &mut MemorySink,
) -> Result<(), AllocError>
    requires ordered { refusal.now.start ≤ refusal.now.end }
    requires within { refusal.now.end ≤ length bytes.now }
    ensures { OnOk result (Wrote text.old text.new
        (refusal_text name.now bytes.now refusal.now.start refusal.now.end
        refusal.now.message.now)) }
{
    tell_place(alloc, name, bytes, refusal, text)?;
    tell_last(name, bytes, refusal, text)
}

/// Adds where the parser stops, and that line with the parser's message.
fn tell_place<'a>(
    alloc: Global,
    name: &'a str,
    bytes: &'a [u8],
    refusal: &Refusal<'a>,
    text: &mut MemorySink,
) -> Result<(), AllocError>
    requires ordered { refusal.now.start ≤ refusal.now.end }
    requires within { refusal.now.end ≤ length bytes.now }
    ensures { OnOk result (Wrote text.old text.new
        (head_text name.now bytes.now refusal.now.start refusal.now.end refusal.now.message.now)) }
{
    let before = &bytes[..refusal.start];
    let label = shown_bytes(alloc, refusal.message.as_bytes())?;
    tell(
        text,
        &[
            Part::Plain(" --> "),
            Part::Name(name),
            Part::Plain(":"),
            Part::Number(u64::from(line_number(before))),
            Part::Plain(":"),
            Part::Number(u64::from(column(before))),
            Part::Plain("\n"),
            Part::Picture(Picture {
                number: line_number(before),
                line: line_at(bytes, refusal.start),
                column: column(before),
                width: narrowed(refusal.end - refusal.start),
                label: label.as_slice(),
            }),
        ],
    )
}

/// Bytes as they are shown.
fn shown_bytes(alloc: Global, bytes: &[u8]) -> Result<Vec<u8>, AllocError>
    ensures { IfOk result (λ shown. shown.items ≡ map shown_byte bytes.now) }
{
    bytes.iter().map(|byte| shown_byte(*byte)).collect(alloc)
}

/// Adds what is wrong with the bytes as a whole, or else what mends the place.
fn tell_last<'a>(
    name: &'a str,
    bytes: &'a [u8],
    refusal: &Refusal<'a>,
    text: &mut MemorySink,
) -> Result<(), AllocError>
    requires ordered { refusal.now.start ≤ refusal.now.end }
    requires within { refusal.now.end ≤ length bytes.now }
    ensures { OnOk result (Wrote text.old text.new
        (last_text name.now bytes.now refusal.now.start refusal.now.message.now)) }
{
    if let Some(fault) = encoding_fault(bytes, refusal.message) {
        return tell(
            text,
            &[
                Part::Plain(" = "),
                Part::Name(name),
                Part::Plain(fault),
                Part::Plain("\n"),
            ],
        );
    }
    let note = mending(None, quotes_hint(&bytes[refusal.start..], refusal.message));
    tell(
        text,
        &[
            Part::Plain(note.lead),
            Part::Plain(note.text),
            Part::Plain(note.end),
        ],
    )
}

/// What is wrong with how bytes are written, behind the file's name.
fn encoding_fault(bytes: &[u8], message: &str) -> Option<&'static str>
    ensures { option_map (λ f. f.now) result ≡ encoding_fault bytes.now message.now }
{
    if is_utf16(bytes) {
        Some(" is UTF-16: save it as UTF-8")
    } else if bytes.starts_with(b"\xEF\xBB\xBF") {
        Some(" begins with a byte order mark: save it without one")
    } else if message == "invalid UTF-8" {
        Some(" is not UTF-8")
    } else {
        None
    }
}

/// Whether bytes begin as UTF-16 does.
fn is_utf16(bytes: &[u8]) -> bool
    ensures { result ≡ is_utf16 bytes.now }
{
    bytes.starts_with(b"\xFF\xFE") || bytes.starts_with(b"\xFE\xFF")
}

/// What mends a word that stands where a value is wanted.
fn quotes_hint(rest: &[u8], message: &str) -> Option<&'static str>
    ensures { option_map (λ h. h.now) result ≡ quotes_hint rest.now message.now }
{
    if message.as_bytes().starts_with(b"invalid value") && begins_word(rest) {
        Some("texts stand in double quotes, true and false without")
    } else {
        None
    }
}

/// Whether bytes begin with a letter, be it of ASCII or not.
fn begins_word(rest: &[u8]) -> bool
    ensures { result ≡ begins_word (slice_get rest.now 0) }
{
    match rest.first() {
        Some(byte) => byte.is_ascii_alphabetic() || *byte >= 0x80,
        None => false,
    }
}
