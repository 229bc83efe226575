//! The points of a report, and the lines around them.
ghost use Rattle.std.specs.Prelude.{◌≡◌, ◌<◌, ◌+◌, ◌^◌, [], ◌++◌, codes, cond, replicate};
ghost use Rattle.std.specs.Fmt.{decimal};
ghost use Rattle.iso_lifecycle.specs.ResultViews.{outcome_of_view, verdict_of_view};
ghost use Rattle.iso_tap.specs.Escapes.{escaped};
ghost use Rattle.iso_tap.specs.ReportBlocks.{is_silent, point};
ghost use Rattle.iso_tap.specs.ReportLines.{directive, plan_line, point_line, subtest_line};

use crate::blocks::printed_nothing;
use crate::buffered::BufferedPrinter;
use crate::printer::Piece;
use crate::sink::{Sink, SinkFailed};
use iso_lifecycle::view::{View, ViewVerdict};
use iso_model::outcome::Note;

impl<'a, W: Sink> BufferedPrinter<'a, W> {
    ghost use Rattle.iso_tap.specs.Buffers.{Buffers};

    /// Adds the plan of a level.
    pub(crate) fn plan_line(&mut self, indent: u64, count: usize) -> Result<(), SinkFailed>
        ensures { Buffers self.old self.new (plan_line indent count) result }
    {
        self.line(indent, &[Piece::Plain(b"1.."), Piece::Number(count as u64)])
    }

    /// Adds the comment above a class's level.
    pub(crate) fn subtest_line(&mut self, indent: u64, title: &str) -> Result<(), SinkFailed>
        ensures { Buffers self.old self.new (subtest_line indent title.now) result }
    {
        self.line(
            indent,
            &[Piece::Plain(b"# Subtest: "), Piece::Escaped(title)],
        )
    }

    /// Adds a point, and its block where the outcome has something to tell.
    pub(crate) fn point<'x>(
        &mut self,
        indent: u64,
        number: u64,
        ok: bool,
        title: &'x str,
        outcome: View<'x>,
    ) -> Result<(), SinkFailed>
        requires { indent + 4 < 2 ^ 64 }
        ensures { Buffers self.old self.new
            (point indent number ok title.now (outcome_of_view outcome.entry)) result }
    {
        self.point_line(indent, number, ok, title, outcome.verdict)?;
        if is_silent(outcome) {
            return Ok(());
        }
        self.block(indent + 2, outcome)
    }

    /// Adds the line of a point.
    fn point_line<'x>(
        &mut self,
        indent: u64,
        number: u64,
        ok: bool,
        title: &'x str,
        verdict: ViewVerdict<'x>,
    ) -> Result<(), SinkFailed>
        ensures { Buffers self.old self.new
            (point_line indent number ok title.now (verdict_of_view verdict.entry)) result }
    {
        self.point_start(indent, number, ok)?;
        self.escaped(b'#', title.as_bytes())?;
        self.directive(ok, verdict)?;
        self.bytes(b"\n")
    }

    /// Adds what stands before the title of a point.
    fn point_start(&mut self, indent: u64, number: u64, ok: bool) -> Result<(), SinkFailed>
        ensures { Buffers self.old self.new (replicate indent 32
            ++ cond ok (codes "ok ") (codes "not ok ") ++ decimal number ++ codes " - ") result }
    {
        self.spaces(indent)?;
        self.bytes(answer(ok).as_bytes())?;
        self.number(number)?;
        self.bytes(b" - ")
    }

    /// Adds the directive of an ok point, with its reason.
    fn directive(&mut self, ok: bool, verdict: ViewVerdict<'_>) -> Result<(), SinkFailed>
        ensures { Buffers self.old self.new
            (cond ok (directive (verdict_of_view verdict.entry)) []) result }
    {
        match verdict {
            ViewVerdict::Skipped(note) if ok => self.skipped(note),
            _ => Ok(()),
        }
    }

    /// Adds the directive of a skipped point, with its reason.
    fn skipped(&mut self, note: &Note) -> Result<(), SinkFailed>
        ensures { Buffers self.old self.new (codes " # SKIP " ++ escaped note.now.message) result }
    {
        self.bytes(b" # SKIP ")?;
        self.escaped(b'#', note.message.as_str().as_bytes())
    }
}

/// Whether a point is ok, as its line begins.
fn answer(ok: bool) -> &'static str
    ensures { result.now ≡ cond ok (codes "ok ") (codes "not ok ") }
{
    if ok { "ok " } else { "not ok " }
}

/// Whether an outcome has nothing to tell: it passed, and nothing was printed.
fn is_silent(outcome: View<'_>) -> bool
    ensures { result ≡ is_silent (verdict_of_view outcome.entry.verdict)
        (outcome_of_view outcome.entry).output }
{
    matches!(outcome.verdict, ViewVerdict::Pass) && printed_nothing(outcome)
}
