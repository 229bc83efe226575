//! What each worker did.
ghost use Rattle.std.specs.Prelude.{◌≡◌, ◌<◌, IfOk, OnOk, length, map};
ghost use Rattle.iso_html.specs.Bars.{body_marks, both_marks, lane_marks, node_marks};
ghost use Rattle.iso_html.specs.Lists.{AreLonger};
ghost use Rattle.iso_junit.specs.Runs.{run_of};
ghost use Rattle.iso_lifecycle.specs.ResultViews.{AreComplete};
ghost use Rattle.iso_plan.specs.Paths.{column};

use crate::bars::{body_mark, look_of};
use crate::lists::{empty, put};
use crate::shape::{Look, Mark};
use iso_critical::critical::CriticalBodies;
use iso_junit::run::Run;
use iso_lifecycle::kind::{BodyKind, first_kind};
use iso_times::times::{BodyTime, Times};
use std::alloc::{AllocError, Global};

/// The bodies that each of `workers` workers did, in the order of the nodes, of which these are
/// critical.
pub(crate) fn lanes(
    alloc: Global,
    run: &Run<'_, '_>,
    times: &Times,
    critical: &CriticalBodies,
    workers: u32,
) -> Result<Vec<Vec<Mark>>, AllocError>
    requires complete { AreComplete run.now.results.now }
    ensures { IfOk result (λ v. map (λ l. l.items) v.items
        ≡ column (lane_marks (run_of run.now) times.now critical.now) workers) }
{
    let mut lanes = empty(alloc, workers)?;
    'nodes: for node in 0..run.plan.len() {
        add_node(&mut lanes, run, times, critical, node)?;
    }
    Ok(lanes)
}

/// Adds the bodies of a node, where it has a time of its own.
fn add_node(
    lanes: &mut Vec<Vec<Mark>>,
    run: &Run<'_, '_>,
    times: &Times,
    critical: &CriticalBodies,
    node: u32,
) -> Result<(), AllocError>
    requires complete { AreComplete run.now.results.now }
    requires within { node < length run.now.plan.now.rows }
    ensures { OnOk result (AreLonger (map (λ l. l.items) lanes.old.items)
        (map (λ l. l.items) lanes.new.items)
        (λ w. node_marks (run_of run.now) times.now critical.now w node)) }
{
    if run.time(node).is_none() {
        return Ok(());
    }
    add_both(lanes, run, times, critical, node)
}

/// Adds both bodies of a node.
fn add_both(
    lanes: &mut Vec<Vec<Mark>>,
    run: &Run<'_, '_>,
    times: &Times,
    critical: &CriticalBodies,
    node: u32,
) -> Result<(), AllocError>
    requires complete { AreComplete run.now.results.now }
    requires within { node < length run.now.plan.now.rows }
    ensures { OnOk result (AreLonger (map (λ l. l.items) lanes.old.items)
        (map (λ l. l.items) lanes.new.items)
        (λ w. both_marks (run_of run.now) times.now critical.now w node)) }
{
    let look = look_of(run, node);
    let kind = first_kind(run.plan, node);
    let first = times.body(node, BodyKind::BeforeAll);
    let last = times.body(node, BodyKind::AfterAll);
    add_body(lanes, node, look, critical.has(node, kind), kind, first)?;
    let closing = BodyKind::AfterAll;
    add_body(
        lanes,
        node,
        look,
        critical.has(node, closing),
        closing,
        last,
    )
}

/// Adds a body to the lane of its worker, where it has a time.
fn add_body(
    lanes: &mut Vec<Vec<Mark>>,
    node: u32,
    look: Look,
    critical: bool,
    kind: BodyKind,
    time: Option<BodyTime>,
) -> Result<(), AllocError>
    ensures { OnOk result (AreLonger (map (λ l. l.items) lanes.old.items)
        (map (λ l. l.items) lanes.new.items)
        (λ w. body_marks w node look critical kind time)) }
{
    match time {
        Some(time) => put(
            lanes,
            time.worker,
            body_mark(node, look, critical, kind, time),
        ),
        None => Ok(()),
    }
}
