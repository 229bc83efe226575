//! The block under a point.
ghost use Rattle.std.specs.Prelude.{◌≡◌, ◌<◌, ◌+◌, ◌^◌, ◌++◌, ◌==◌, Some, codes, length};
ghost use Rattle.std.specs.Option.{option_map};
ghost use Rattle.iso_lifecycle.specs.ResultViews.{outcome_of_view, verdict_of_view};
ghost use Rattle.iso_model.specs.LinesView.{lines_in};
ghost use Rattle.iso_tap.specs.ReportBlocks.{block_lines, item_lines, note_lines, note_of, output_lines, verdict_lines, verdict_word};

use crate::buffered::BufferedPrinter;
use crate::printer::Piece;
use crate::sink::{Sink, SinkFailed};
use iso_lifecycle::view::{View, ViewVerdict};
use iso_model::lines::LineSlice;
use iso_model::outcome::Note;

impl<'a, W: Sink> BufferedPrinter<'a, W> {
    ghost use Rattle.iso_tap.specs.Buffers.{Buffers};

    /// Adds the block of an outcome.
    pub(crate) fn block(&mut self, indent: u64, outcome: View<'_>) -> Result<(), SinkFailed>
        requires { indent + 2 < 2 ^ 64 }
        ensures { Buffers self.old self.new
            (block_lines indent (outcome_of_view outcome.entry)) result }
    {
        self.text_line(indent, b"---")?;
        self.verdict(indent, outcome.verdict)?;
        self.output(indent, outcome)?;
        self.text_line(indent, b"...")
    }

    /// Adds the word of a verdict, and its message and place where it has them.
    fn verdict(&mut self, indent: u64, verdict: ViewVerdict<'_>) -> Result<(), SinkFailed>
        ensures { Buffers self.old self.new
            (verdict_lines indent (verdict_of_view verdict.entry)) result }
    {
        self.text_line(indent, verdict_text(verdict).as_bytes())?;
        match note(verdict) {
            Some(note) => self.note(indent, note),
            None => Ok(()),
        }
    }

    /// Adds a message and its place.
    fn note(&mut self, indent: u64, note: &Note) -> Result<(), SinkFailed>
        ensures { Buffers self.old self.new (note_lines indent (Some note.now)) result }
    {
        self.quoted_line(indent, b"message: \"", note.message.as_str().as_bytes())?;
        self.line(
            indent,
            &[
                Piece::Plain(b"at: \""),
                Piece::At(note.place),
                Piece::Plain(b"\""),
            ],
        )
    }

    /// Adds what was printed.
    fn output(&mut self, indent: u64, outcome: View<'_>) -> Result<(), SinkFailed>
        requires { indent + 2 < 2 ^ 64 }
        ensures { Buffers self.old self.new
            (output_lines indent (outcome_of_view outcome.entry).output) result }
    {
        if printed_nothing(outcome) {
            return self.text_line(indent, b"output: []");
        }
        self.text_line(indent, b"output:")?;
        self.items(indent + 2, outcome.lines)?;
        self.items(indent + 2, outcome.more)
    }

    /// Adds printed lines, one item each.
    fn items(&mut self, indent: u64, lines: LineSlice<'_>) -> Result<(), SinkFailed>
        ensures { Buffers self.old self.new (item_lines indent (lines_in lines.entry)) result }
    {
        let mut left = lines;
        'lines: while let Some((line, rest)) = left.split_first() {
            self.quoted_line(indent, b"- \"", line)?;
            left = rest;
        }
        Ok(())
    }
}

/// Whether nothing was printed.
pub(crate) fn printed_nothing(outcome: View<'_>) -> bool
    ensures { result ≡ (length (outcome_of_view outcome.entry).output == 0) }
{
    outcome.lines.is_empty() && outcome.more.is_empty()
}

/// The line of a verdict's word.
fn verdict_text(verdict: ViewVerdict<'_>) -> &'static str
    ensures { result.now ≡ codes "verdict: " ++ verdict_word (verdict_of_view verdict.entry) }
{
    match verdict {
        ViewVerdict::Pass => "verdict: pass",
        ViewVerdict::Fail(_) => "verdict: fail",
        ViewVerdict::Fault(..) => "verdict: fault",
        ViewVerdict::Skipped(_) => "verdict: skipped",
        ViewVerdict::Blocked(_) => "verdict: blocked",
    }
}

/// The message of a verdict with its place, if it has one.
fn note<'a>(verdict: ViewVerdict<'a>) -> Option<&'a Note>
    ensures { option_map (λ n. n.now) result ≡ note_of (verdict_of_view verdict.entry) }
{
    match verdict {
        ViewVerdict::Pass => None,
        ViewVerdict::Fail(note)
        | ViewVerdict::Fault(_, note)
        | ViewVerdict::Skipped(note)
        | ViewVerdict::Blocked(note) => Some(note),
    }
}
