//! Where the nodes of a plan stand.
ghost use Rattle.std.specs.Prelude.{◌≡◌, ◌<◌, IfOk, length, map};
ghost use Rattle.iso_junit.specs.Runs.{placed_of};
ghost use Rattle.iso_lifecycle.specs.ResultViews.{AreComplete, outcome_in};
ghost use Rattle.iso_plan.specs.RowView.{tree_of};
ghost use Rattle.iso_telling.specs.NodePlaces.{node_place, node_places, nowhere, place_told};
ghost use Rattle.iso_telling.specs.Written.{lent};

use crate::lines::{line_told, name_line};
use crate::located::name_of;
use iso_junit::placed::Placed;
use iso_lifecycle::results::Results;
use iso_places::site::Sites;
use iso_plan::plan::Plan;
use std::alloc::{AllocError, Global};

/// Where each node of a plan stands, the root too, by its number. A line beyond the numbers of 32
/// bits, which no script has, counts as out of memory.
pub(crate) fn node_places<'a>(
    alloc: Global,
    names: &'a [&'a str],
    plan: &Plan,
    results: &Results<'_>,
    sites: &Sites,
) -> Result<Vec<Placed<'a>>, AllocError>
    requires plan { results.now.plan ≡ plan.now }
    requires complete { AreComplete results.now }
    ensures places { IfOk result (λ v. map placed_of v.items
        ≡ node_places (lent names.now) (tree_of plan.now) sites.now (outcome_in results.now)) }
    ensures each { IfOk result (λ v. length v.items ≡ length plan.now.rows) }
{
    let mut places = Vec::with_capacity(alloc, plan.len() as usize)?;
    'nodes: for node in 0..plan.len() {
        places.push(node_place(names, plan, results, sites, node)?)?;
    }
    Ok(places)
}

/// Where a node stands.
fn node_place<'a>(
    names: &'a [&'a str],
    plan: &Plan,
    results: &Results<'_>,
    sites: &Sites,
    node: u32,
) -> Result<Placed<'a>, AllocError>
    requires plan { results.now.plan ≡ plan.now }
    requires complete { AreComplete results.now }
    requires within { node < length plan.now.rows }
    ensures { IfOk result (λ p. placed_of p
        ≡ node_place (lent names.now) (tree_of plan.now) sites.now (outcome_in results.now) node) }
{
    if node == 0 {
        return Ok(nowhere());
    }
    place_told(names, plan, results, sites, node)
}

/// No place, as the root has it.
fn nowhere() -> Placed<'static>
    ensures { placed_of result ≡ nowhere }
{
    Placed {
        file: "",
        line: 0,
        ended: 0,
    }
}

/// Where a node other than the root stands.
fn place_told<'a>(
    names: &'a [&'a str],
    plan: &Plan,
    results: &Results<'_>,
    sites: &Sites,
    node: u32,
) -> Result<Placed<'a>, AllocError>
    requires plan { results.now.plan ≡ plan.now }
    requires complete { AreComplete results.now }
    requires above { 0 < node }
    requires within { node < length plan.now.rows }
    ensures { IfOk result (λ p. placed_of p
        ≡ place_told (lent names.now) (tree_of plan.now) sites.now node (outcome_in results.now)) }
{
    let name = name_line(plan, sites, node);
    let ended = line_told(plan, results, sites, node);
    Ok(Placed {
        file: name_of(names, name.script),
        line: line_number(name.line)?,
        ended: line_number(ended.line)?,
    })
}

/// The number of a line.
fn line_number(line: u64) -> Result<u32, AllocError>
    ensures { IfOk result (λ n. n ≡ line) }
{
    match u32::try_from(line) {
        Ok(line) => Ok(line),
        Err(_) => Err(AllocError),
    }
}
