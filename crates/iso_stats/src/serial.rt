//! How long nodes take at least.
ghost use Rattle.std.specs.Prelude.{◌≡◌};
ghost use Rattle.iso_stats.specs.Measures.{own, took};
ghost use Rattle.iso_waits.specs.Stays.{body_time};

use crate::modes::Freed;
use iso_lifecycle::kind::BodyKind;
use iso_model::script::Mode;
use iso_plan::plan::Plan;
use iso_times::times::Times;
use std::alloc::{AllocError, Global};

/// How long each node takes, however many workers there are: its own bodies, and what in it takes
/// longest: its SAME_THREAD children one after another, or one of its CONCURRENT children.
pub(crate) fn serial(
    alloc: Global,
    plan: &Plan,
    times: &Times,
    freed: &Freed,
) -> Result<Vec<u64>, AllocError> {
    let mut in_turn = zeros(alloc, plan.len())?;
    let mut longest = zeros(alloc, plan.len())?;
    let mut node = plan.len();
    'nodes: while 0 < node {
        node -= 1;
        let inner = time_of(&in_turn, node).max(time_of(&longest, node));
        let time = own(times, node).saturating_add(inner);
        set(&mut longest, node, time);
        if let Some(class) = plan.parent(node) {
            match freed.mode(plan, node) {
                Mode::SameThread => {
                    let sum = time_of(&in_turn, class).saturating_add(time);
                    set(&mut in_turn, class, sum);
                }
                Mode::Concurrent => {
                    let most = time_of(&longest, class).max(time);
                    set(&mut longest, class, most);
                }
            }
        }
    }
    Ok(longest)
}

/// How long the bodies of a node took.
pub(crate) fn own(times: &Times, node: u32) -> u64
    ensures { result ≡ own times.now node }
{
    took(times, node, BodyKind::BeforeAll).saturating_add(took(times, node, BodyKind::AfterAll))
}

/// How long a body took; none that has no time.
fn took(times: &Times, node: u32, kind: BodyKind) -> u64
    ensures { result ≡ took (body_time times.now node kind) }
{
    match times.body(node, kind) {
        Some(time) => time.end.saturating_sub(time.begin),
        None => 0,
    }
}

/// The time of a node; none where it has no place.
pub(crate) fn time_of(times: &[u64], node: u32) -> u64 {
    match times.get(node as usize) {
        Some(time) => *time,
        None => 0,
    }
}

/// Sets the time of a node.
fn set(times: &mut [u64], node: u32, time: u64) {
    if let Some(place) = times.get_mut(node as usize) {
        *place = time;
    }
}

/// No time for each node.
fn zeros(alloc: Global, nodes: u32) -> Result<Vec<u64>, AllocError> {
    let mut times = Vec::with_capacity(alloc, nodes as usize)?;
    'nodes: for _node in 0..nodes {
        times.push(0)?;
    }
    Ok(times)
}
