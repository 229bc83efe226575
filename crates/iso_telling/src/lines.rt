//! The lines that a summary tells of nodes.
ghost use Rattle.std.specs.Prelude.{◌≡◌, ◌<◌, All, IfOk, length, map};
ghost use Rattle.iso_lifecycle.specs.ResultViews.{AreComplete, outcome_in, verdict_of_view};
ghost use Rattle.iso_plan.specs.RowView.{tree_of};
ghost use Rattle.iso_summary.specs.Summaries.{IsNode};
ghost use Rattle.iso_telling.specs.ToldLines.{line_of_what_ended, line_told, name_line, place_of};
ghost use Rattle.iso_telling.specs.ToldPlaces.{told, told_of};

use crate::explained::hints_told;
use crate::told::Told;
use crate::verdict::verdict;
use iso_lifecycle::results::Results;
use iso_lifecycle::view::ViewVerdict;
use iso_model::place::Place;
use iso_places::end::{ScriptLine, line_of_end};
use iso_places::site::Sites;
use iso_plan::plan::Plan;
use std::alloc::{AllocError, Global};

/// What is told of each of these nodes: its line and, where it is asked for, what mends it.
pub(crate) fn lines_told(
    alloc: Global,
    plan: &Plan,
    results: &Results<'_>,
    sites: &Sites,
    explain: bool,
    nodes: &[u32],
) -> Result<Vec<Told>, AllocError>
    requires plan { results.now.plan ≡ plan.now }
    requires complete { AreComplete results.now }
    requires nodes { All (IsNode plan.now) nodes.now }
    ensures { IfOk result (λ v. map told_of v.items
        ≡ map (told explain (tree_of plan.now) sites.now (outcome_in results.now)) nodes.now) }
{
    let mut lines = Vec::with_capacity(alloc, nodes.len())?;
    'nodes: for node in nodes {
        lines.push(told(alloc, plan, results, sites, explain, *node)?)?;
    }
    Ok(lines)
}

/// What is told of a node.
fn told(
    alloc: Global,
    plan: &Plan,
    results: &Results<'_>,
    sites: &Sites,
    explain: bool,
    node: u32,
) -> Result<Told, AllocError>
    requires plan { results.now.plan ≡ plan.now }
    requires complete { AreComplete results.now }
    requires above { 0 < node }
    requires within { node < length plan.now.rows }
    ensures { IfOk result (λ t. told_of t
        ≡ told explain (tree_of plan.now) sites.now (outcome_in results.now) node) }
{
    Ok(Told {
        line: line_told(plan, results, sites, node),
        hints: hints_told(alloc, plan, results, explain, node)?,
    })
}

/// The line that is told of a node: where what ended it stands, else that of its name.
pub(crate) fn line_told(plan: &Plan, results: &Results<'_>, sites: &Sites, node: u32) -> ScriptLine
    requires plan { results.now.plan ≡ plan.now }
    requires complete { AreComplete results.now }
    requires above { 0 < node }
    requires within { node < length plan.now.rows }
    ensures { result ≡ line_told (tree_of plan.now) sites.now (outcome_in results.now) node }
{
    match line_of_what_ended(plan, results, sites, node) {
        Some(line) => line,
        None => name_line(plan, sites, node),
    }
}

/// The line where what ended a node stands, if it is written.
fn line_of_what_ended(
    plan: &Plan,
    results: &Results<'_>,
    sites: &Sites,
    node: u32,
) -> Option<ScriptLine>
    requires plan { results.now.plan ≡ plan.now }
    requires complete { AreComplete results.now }
    requires above { 0 < node }
    requires within { node < length plan.now.rows }
    ensures { result ≡ line_of_what_ended (tree_of plan.now) sites.now
        (outcome_in results.now) node }
{
    let at = place_of(verdict(results, node))?;
    line_of_end(plan, sites, node, at)
}

/// The place that a verdict tells.
fn place_of(verdict: ViewVerdict<'_>) -> Option<Place>
    ensures { result ≡ place_of (verdict_of_view verdict.entry) }
{
    match verdict {
        ViewVerdict::Pass => None,
        ViewVerdict::Fail(note)
        | ViewVerdict::Fault(_, note)
        | ViewVerdict::Skipped(note)
        | ViewVerdict::Blocked(note) => Some(note.place),
    }
}

/// The line of a node's name.
pub(crate) fn name_line(plan: &Plan, sites: &Sites, node: u32) -> ScriptLine
    requires { node < length plan.now.rows }
    ensures { result ≡ name_line sites.now node }
{
    // A disabled node's line is that of its name.
    match line_of_end(plan, sites, node, Place::Disabled) {
        Some(line) => line,
        None => ScriptLine { script: 0, line: 0 },
    }
}
