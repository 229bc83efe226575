//! Whom nodes waited for last.
ghost use Rattle.std.specs.Prelude.{◌≡◌, ◌<◌, ℕ, IfOk, None, length, slice_index_or};
ghost use Rattle.std.specs.Option.{option_map};
ghost use Rattle.iso_critical.specs.Needs.{last_holders, last_wait, later, noted};
ghost use Rattle.iso_plan.specs.Paths.{column};

use iso_waits::wait::NodeWait;
use std::alloc::{AllocError, Global};

/// The node that each of `nodes` nodes waited for last, by their numbers.
pub(crate) fn last_holders(
    alloc: Global,
    waits: &[NodeWait],
    nodes: u32,
) -> Result<Vec<Option<u32>>, AllocError>
    ensures { IfOk result (λ v. v.items ≡ last_holders waits.now nodes) }
{
    let last = last_waits(alloc, waits, nodes)?;
    let mut holders = Vec::new(alloc);
    'nodes: for node in 0..nodes {
        holders.push(last_holder(&last, node))?;
    }
    Ok(holders)
}

/// Of the waits of each of `nodes` nodes the one that ended last, by their numbers.
fn last_waits(
    alloc: Global,
    waits: &[NodeWait],
    nodes: u32,
) -> Result<Vec<Option<NodeWait>>, AllocError>
    ensures { IfOk result (λ v. v.items ≡ column (λ n. last_wait n None waits.now) nodes) }
{
    let mut last = vec![in alloc; None; nodes as usize]?;
    for wait in waits {
        note(&mut last, *wait);
    }
    Ok(last)
}

/// Notes a wait, where its node is one of them.
fn note(last: &mut Vec<Option<NodeWait>>, wait: NodeWait)
    ensures size { length last.new.items ≡ length last.old.items }
    ensures noted { (n : ℕ) → n < length last.old.items → slice_index_or last.new.items n None
        ≡ noted n (slice_index_or last.old.items n None) wait }
{
    let node = wait.node as usize;
    if node < last.len() {
        last[node] = Some(later(last[node], wait));
    }
}

/// Of two waits, if there is a first one, the one that ended later; of those that ended together
/// the second.
fn later(found: Option<NodeWait>, wait: NodeWait) -> NodeWait
    ensures { result ≡ later found wait }
{
    match found {
        Some(found) if wait.end < found.end => found,
        _ => wait,
    }
}

/// The node that a node waited for in its wait that ended last.
fn last_holder(last: &[Option<NodeWait>], node: u32) -> Option<u32>
    ensures { result ≡ option_map (λ w. w.last) (slice_index_or last.now node None) }
{
    let wait = (*last.get(node as usize)?)?;
    Some(wait.last)
}

/// The one of a node.
pub(crate) fn holder_of(holders: &[Option<u32>], node: u32) -> Option<u32>
    ensures { result ≡ slice_index_or holders.now node None }
{
    *holders.get(node as usize)?
}
