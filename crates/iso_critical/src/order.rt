//! The bodies of a run, in the order in which they ended, from the last one on.
ghost use Rattle.std.specs.Prelude.{◌≡◌, ◌<◌, ◌++◌, IfOk, OnOk, map};
ghost use Rattle.iso_critical.specs.Bodies.{body_at, latest_first, ran};
ghost use Rattle.iso_critical.specs.Orders.{body_of, placed};
ghost use Rattle.iso_times.specs.Tables.{slot_of};

use crate::body::Body;
use iso_lifecycle::kind::BodyKind;
use iso_times::times::Times;
use std::alloc::{AllocError, Global};
use std::cmp::Reverse;

/// The bodies of `nodes` nodes that have a time: those that ended last first.
pub(crate) fn latest_first(
    alloc: Global,
    times: &Times,
    nodes: u32,
) -> Result<Vec<Body>, AllocError>
    requires { 0 < nodes }
    ensures { IfOk result (λ v. v.items ≡ latest_first times.now nodes) }
{
    let mut bodies = by_place(alloc, times, nodes)?;
    bodies.sort_unstable_by_key(|body| (Reverse(body.time.end), body.place));
    Ok(bodies)
}

/// The bodies of `nodes` nodes that have a time, in the order of their places. The root has none.
fn by_place(alloc: Global, times: &Times, nodes: u32) -> Result<Vec<Body>, AllocError>
    requires { 0 < nodes }
    ensures { IfOk result (λ v. v.items ≡ map (body_at times.now) (ran times.now nodes)) }
{
    let mut bodies = Vec::new(alloc);
    'nodes: for node in 1..nodes {
        add(&mut bodies, times, node, BodyKind::BeforeAll)?;
        add(&mut bodies, times, node, BodyKind::AfterAll)?;
    }
    Ok(bodies)
}

/// Adds a body of a node other than the root, if it has a time.
fn add(bodies: &mut Vec<Body>, times: &Times, node: u32, kind: BodyKind) -> Result<(), AllocError>
    requires { 0 < node }
    ensures { OnOk result (bodies.new.items
        ≡ bodies.old.items ++ map (body_at times.now) (placed times.now (slot_of node kind))) }
{
    if let Some(body) = body_of(times, node, kind) {
        bodies.push(body)?;
    }
    Ok(())
}

/// A body of a node, if it has a time.
fn body_of(times: &Times, node: u32, kind: BodyKind) -> Option<Body>
    ensures { result ≡ body_of times.now node kind }
{
    let time = times.body(node, kind)?;
    Some(Body {
        place: place_of(node, kind),
        node,
        closes: matches!(kind, BodyKind::AfterAll),
        time,
    })
}

/// The place of a node's body: each node has two, of which the second is that of a class's
/// `after_all`.
pub(crate) fn place_of(node: u32, kind: BodyKind) -> usize
    ensures { result ≡ slot_of node kind }
{
    let first = node as usize * 2;
    match kind {
        BodyKind::BeforeAll | BodyKind::Test => first,
        BodyKind::AfterAll => first + 1,
    }
}
