//! The stays of all nodes, in the order of their begins.
ghost use Rattle.std.specs.Prelude.{◌≡◌, ◌≤◌, IfOk, [], filter, length, vec_capacity};
ghost use Rattle.std.specs.List.Sorted.{IsNonDecreasingBy, IsPermutation};
ghost use Rattle.iso_plan.specs.Locks.{conflict};
ghost use Rattle.iso_plan.specs.RowView.{tree_of};
ghost use Rattle.iso_waits.specs.Moments.{begin_of};
ghost use Rattle.iso_waits.specs.Stays.{stays_below};

use crate::stay::{Stay, stayed};
use iso_times::times::Times;
use std::alloc::{AllocError, Global};

/// The stays of nodes with a number below this, in the order of their begins.
pub(crate) fn in_order(alloc: Global, times: &Times, nodes: u32) -> Result<Vec<Stay>, AllocError>
    ensures all { IfOk result (λ v. IsPermutation (stays_below times.now nodes) v.items) }
    ensures order { IfOk result (λ v. IsNonDecreasingBy begin_of v.items) }
{
    let mut stays = by_number(alloc, times, nodes)?;
    sort(&mut stays);
    Ok(stays)
}

/// The same in the order of the nodes.
fn by_number(alloc: Global, times: &Times, nodes: u32) -> Result<Vec<Stay>, AllocError>
    ensures { IfOk result (λ v. v.items ≡ stays_below times.now nodes) }
{
    let mut stays = Vec::with_capacity(alloc, nodes as usize)?;
    'nodes: for node in 0..nodes {
        if let Some(stay) = stayed(times, node) {
            stays.push(stay)?;
        }
    }
    Ok(stays)
}

/// Orders stays by their begins.
fn sort(stays: &mut [Stay])
    ensures all { IsPermutation stays.old stays.new }
    ensures order { IsNonDecreasingBy begin_of stays.new }
{
    stays.sort_unstable_by_key(|stay| stay.begin);
}
