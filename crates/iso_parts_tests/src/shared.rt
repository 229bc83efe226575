//! What the tests of several parts share.
use iso_model::lines::LineSlice;
use iso_model::properties::Properties;
use iso_model::text::Text;
use std::alloc::{AllocError, Global};
use std::process::Abort;

/// Adds these pieces, each as many times as its number says.
pub fn add(text: &mut String, pieces: &[(&str, usize)]) -> Result<(), AllocError> {
    for (piece, count) in pieces {
        for _ in 0..*count {
            text.push_str(piece)?;
        }
    }
    Ok(())
}

/// These pieces, each as many times as its number says.
pub fn made(alloc: Global, pieces: &[(&str, usize)]) -> Result<String, AllocError> {
    let mut text = String::new(alloc);
    add(&mut text, pieces)?;
    Ok(text)
}

/// Adds lines, each with this end.
pub fn push_lines(
    alloc: Global,
    text: &mut String,
    lines: LineSlice<'_>,
    end: &str,
) -> Result<(), AllocError> {
    let mut left = lines;
    // A body prints no more lines.
    for _ in 0..65_536u32 {
        let Some((line, rest)) = left.split_first() else {
            break;
        };
        let line = String::from_utf8_lossy(alloc, line)?;
        text.push_str(line.as_str())?;
        text.push_str(end)?;
        left = rest;
    }
    Ok(())
}

/// Sets a property.
pub fn set_property(
    alloc: Global,
    properties: &mut Properties,
    name: &str,
    text: &str,
) -> Result<(), AllocError> {
    let name = String::from_str(alloc, name)?;
    properties.set(name, Text::copied(alloc, text)?)
}

/// Asserts a fact, which is named: an assertion in a function of its own is no way out of the
/// caller's.
pub fn expect(rt: &impl Abort, holds: bool, of: &str) {
    assert!(rt; holds, "{of}");
}

/// What was found of this is the wanted text.
pub fn check_text(rt: &impl Abort, of: &str, found: &str, want: &str) {
    assert_eq!(rt; found, want, "of {of}");
}

/// Each front of a text is answered.
pub fn check_fronts(
    rt: &impl Abort,
    alloc: Global,
    text: &[u8],
    is_answered: fn(Global, &[u8]) -> bool,
)
    requires { IsAlwaysCallable is_answered }
{
    for length in 0..text.len() {
        assert!(rt;
            is_answered(alloc, &text[..length]),
            "the first {length} bytes"
        );
    }
}

/// Each text with one byte changed is answered.
pub fn check_changes(
    rt: &impl Abort,
    alloc: Global,
    text: &[u8],
    is_answered: fn(Global, &[u8]) -> bool,
) -> Result<(), AllocError>
    requires { IsAlwaysCallable is_answered }
{
    let mut bytes = Vec::from_slice(alloc, text)?;
    for place in 0..bytes.len() {
        let was = bytes[place];
        for byte in 0..=u8::MAX {
            bytes[place] = byte;
            assert!(rt; is_answered(alloc, &bytes), "{byte} at {place}");
        }
        bytes[place] = was;
    }
    Ok(())
}
