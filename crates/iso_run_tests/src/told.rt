//! What nodes came to, in words.
use iso_lifecycle::view::{View, ViewVerdict};
use iso_model::lines::LineSlice;
use iso_model::outcome::Note;
use std::alloc::{AllocError, Global};
use std::process::Abort;

/// How a result ended, in words.
fn ending(alloc: Global, verdict: ViewVerdict<'_>) -> Result<String, AllocError> {
    match verdict {
        ViewVerdict::Pass => String::from_str(alloc, "pass"),
        ViewVerdict::Fail(note) => noted(alloc, "fail", note),
        ViewVerdict::Fault(_, note) => noted(alloc, "fault", note),
        ViewVerdict::Skipped(note) => noted(alloc, "skipped", note),
        ViewVerdict::Blocked(note) => noted(alloc, "blocked", note),
    }
}

/// A word, with what a note says and where.
fn noted(alloc: Global, word: &str, note: &Note) -> Result<String, AllocError> {
    let place = note.place.text(alloc)?;
    format!(in alloc; "{word}: {} at {}", note.message.as_str(), place.as_str())
}

/// Adds lines to a text.
fn push_lines(alloc: Global, told: &mut String, lines: LineSlice<'_>) -> Result<(), AllocError> {
    let mut left = lines;
    // A body prints no more lines.
    for _ in 0..65_536u32 {
        let Some((line, rest)) = left.split_first() else {
            break;
        };
        let line = String::from_utf8_lossy(alloc, line)?;
        told.push_str(" | ")?;
        told.push_str(line.as_str())?;
        left = rest;
    }
    Ok(())
}

/// Adds all lines of a result to a text.
fn push_output(alloc: Global, told: &mut String, view: View<'_>) -> Result<(), AllocError> {
    push_lines(alloc, told, view.lines)?;
    push_lines(alloc, told, view.more)
}

/// A result in words, with its lines.
fn told(alloc: Global, view: View<'_>) -> Result<String, AllocError> {
    let mut told = ending(alloc, view.verdict)?;
    push_output(alloc, &mut told, view)?;
    Ok(told)
}

/// What a node has come to in words: `none`, where it has no result.
fn told_if(alloc: Global, view: Option<View<'_>>) -> Result<String, AllocError> {
    match view {
        None => String::from_str(alloc, "none"),
        Some(view) => told(alloc, view),
    }
}

/// Asserts what a node has come to after what is named.
pub(crate) fn expect_told<R: Abort>(
    rt: &R,
    alloc: Global,
    node: u32,
    view: Option<View<'_>>,
    want: &str,
    name: &str,
) {
    let told = told_if(alloc, view).expect(rt, "memory");
    assert_eq!(rt; told.as_str(), want, "node {node} after {name}");
}
