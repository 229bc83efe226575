//! The lines of scripts that are shown of the nodes that failed.
ghost use Rattle.std.specs.Prelude.{◌≡◌, ◌<◌, ◌≤◌, ◌+◌, IfOk, [], length, map, slice_index_or};
ghost use Rattle.iso_html.specs.Quotes.{excerpt_of, line_of};
ghost use Rattle.iso_lifecycle.specs.ResultViews.{AreComplete, outcome_in};
ghost use Rattle.iso_places.specs.LineStarts.{line_starts};
ghost use Rattle.iso_plan.specs.RowView.{tree_of};
ghost use Rattle.iso_telling.specs.Excerpts.{around, excerpt, excerpts, failed_line, line_count, lines_after, lines_before, numbered_line};
ghost use Rattle.iso_telling.specs.Written.{lent};

use crate::lines::line_told;
use crate::table::{ScriptTable, text_of};
use crate::verdict::verdict;
use iso_html::quote::Line;
use iso_lifecycle::results::Results;
use iso_lifecycle::view::ViewVerdict;
use iso_places::end::ScriptLine;
use iso_places::lines::LineTable;
use iso_places::site::Sites;
use iso_plan::plan::Plan;
use std::alloc::{AllocError, Global};

/// The lines that are shown of each node's script, the root's too, by the node's number: none of a
/// node that didn't fail. A line beyond the numbers of 32 bits, which no script has, counts as out
/// of memory.
pub(crate) fn node_lines<'a>(
    alloc: Global,
    texts: &'a [&'a [u8]],
    plan: &Plan,
    results: &Results<'_>,
    sites: &Sites,
) -> Result<Vec<Vec<Line<'a>>>, AllocError>
    requires plan { results.now.plan ≡ plan.now }
    requires complete { AreComplete results.now }
    ensures lines { IfOk result (λ v. map excerpt_of v.items
        ≡ excerpts (lent texts.now) (tree_of plan.now) sites.now (outcome_in results.now)) }
    ensures each { IfOk result (λ v. length v.items ≡ length plan.now.rows) }
{
    let mut lines = Vec::with_capacity(alloc, plan.len() as usize)?;
    let mut at_hand = ScriptTable::new(alloc, texts, 0)?;
    'nodes: for node in 0..plan.len() {
        let line = failed_line(plan, results, sites, node);
        // Nodes come script after script, so that the table of each is made once.
        let shown = shown(alloc, texts, at_hand, line)?;
        at_hand = shown.at_hand;
        lines.push(shown.lines)?;
    }
    Ok(lines)
}

/// The line that is told of a node, where it failed.
fn failed_line(plan: &Plan, results: &Results<'_>, sites: &Sites, node: u32) -> Option<ScriptLine>
    requires plan { results.now.plan ≡ plan.now }
    requires complete { AreComplete results.now }
    requires within { node < length plan.now.rows }
    ensures { result ≡ failed_line (tree_of plan.now) sites.now (outcome_in results.now) node }
{
    if node == 0 {
        return None;
    }
    line_of_failure(plan, results, sites, node)
}

/// The line that is told of a node other than the root, where it failed.
fn line_of_failure(
    plan: &Plan,
    results: &Results<'_>,
    sites: &Sites,
    node: u32,
) -> Option<ScriptLine>
    requires plan { results.now.plan ≡ plan.now }
    requires complete { AreComplete results.now }
    requires above { 0 < node }
    requires within { node < length plan.now.rows }
    ensures { result ≡ failed_line (tree_of plan.now) sites.now (outcome_in results.now) node }
{
    match verdict(results, node) {
        ViewVerdict::Fail(_) | ViewVerdict::Fault(_, _) => {
            Some(line_told(plan, results, sites, node))
        }
        ViewVerdict::Pass | ViewVerdict::Skipped(_) | ViewVerdict::Blocked(_) => None,
    }
}

/// Lines that are shown, with the table of the script that was read last.
#[derive(Drop)]
struct ShownLines<'a> {
    at_hand: ScriptTable,
    lines: Vec<Line<'a>>,
}

/// What is shown of a line of one of these scripts, if there is such a line.
fn shown<'a>(
    alloc: Global,
    texts: &'a [&'a [u8]],
    at_hand: ScriptTable,
    line: Option<ScriptLine>,
) -> Result<ShownLines<'a>, AllocError>
    requires { at_hand.table ≡ line_starts (slice_index_or (lent texts.now) at_hand.script []) }
    ensures table { IfOk result (λ s. s.at_hand.table
        ≡ line_starts (slice_index_or (lent texts.now) s.at_hand.script [])) }
    ensures lines { IfOk result (λ s. map line_of s.lines.items ≡ excerpt (lent texts.now) line) }
{
    let Some(at) = line else {
        return Ok(ShownLines {
            at_hand,
            lines: Vec::new(alloc),
        });
    };
    let at_hand = at_hand.turned_to(alloc, texts, at.script)?;
    let lines = around(alloc, text_of(texts, at.script), &at_hand.table, at.line)?;
    Ok(ShownLines { at_hand, lines })
}

/// A line of a text, with those that are shown before it and after it.
fn around<'a>(
    alloc: Global,
    text: &'a [u8],
    table: &LineTable,
    line: u64,
) -> Result<Vec<Line<'a>>, AllocError>
    requires { table.now ≡ line_starts text.now }
    ensures { IfOk result (λ v. map line_of v.items ≡ around text.now line) }
{
    let before = lines_before(line);
    let after = lines_after(text, table, line);
    let first = line.saturating_sub(before);
    let mut lines = Vec::new(alloc);
    'lines: for place in 0..before + 1 + after {
        lines.push(numbered_line(text, table, first.saturating_add(place))?)?;
    }
    Ok(lines)
}

/// How many lines are shown before a line.
fn lines_before(line: u64) -> u64
    ensures { result ≡ lines_before line }
{
    line.saturating_sub(1).min(2)
}

/// How many lines are shown after a line of the text of this table.
fn lines_after(text: &[u8], table: &LineTable, line: u64) -> u64
    requires { table.now ≡ line_starts text.now }
    ensures count { result ≡ lines_after text.now line }
    ensures fits { line + result ≤ 18446744073709551615 }
{
    line_count(text, table).saturating_sub(line).min(2)
}

/// How many lines the text of this table has, but for an empty one behind its last line feed.
fn line_count(text: &[u8], table: &LineTable) -> u64
    requires { table.now ≡ line_starts text.now }
    ensures { result ≡ line_count text.now }
{
    let last = table.last();
    if table.line(text, last).is_empty() {
        last.saturating_sub(1)
    } else {
        last
    }
}

/// A line of a text, with its number.
fn numbered_line<'a>(text: &'a [u8], table: &LineTable, number: u64) -> Result<Line<'a>, AllocError>
    requires { table.now ≡ line_starts text.now }
    ensures { IfOk result (λ l. line_of l ≡ numbered_line text.now number) }
{
    match u32::try_from(number) {
        Ok(short) => Ok(Line {
            number: short,
            text: table.line(text, number),
        }),
        Err(_) => Err(AllocError),
    }
}
