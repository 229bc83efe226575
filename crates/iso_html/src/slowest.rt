//! The slowest tests and classes.
ghost use Rattle.std.specs.Prelude.{◌≡◌, ◌++◌, IfOk, OnOk, map};
ghost use Rattle.iso_durations.specs.Orders.{slowest_first};
ghost use Rattle.iso_durations.specs.Times.{measured, micros, time};
ghost use Rattle.iso_html.specs.Slowest.{entry, slowest, timed_of};
ghost use Rattle.iso_plan.specs.RowView.{tree_of};

use iso_plan::laws;
use iso_plan::plan::Plan;
use std::alloc::{AllocError, Global};
use std::cmp::Reverse;

/// A node, and how many microseconds its bodies took.
#[derive(Clone, Copy)]
pub struct Timed {
    pub micros: u64,
    pub node: u32,
}

/// The ten slowest of those that were measured, slowest first, and of those that took as long the
/// first.
pub(crate) fn slowest(
    alloc: Global,
    plan: &Plan,
    times: &[Option<u64>],
) -> Result<Vec<Timed>, AllocError>
    ensures { IfOk result (λ v. v.items ≡ slowest (tree_of plan.now) times.now) }
{
    let mut timed = in_order(alloc, plan, times)?;
    timed.truncate(10);
    Ok(timed)
}

/// All that were measured, in this order.
fn in_order(alloc: Global, plan: &Plan, times: &[Option<u64>]) -> Result<Vec<Timed>, AllocError>
    ensures { IfOk result (λ v. v.items ≡ map (entry (micros times.now))
        (slowest_first (micros times.now) (measured (tree_of plan.now) times.now))) }
{
    let mut timed = measured(alloc, plan, times)?;
    timed.sort_unstable_by_key(|timed| (Reverse(timed.micros), timed.node));
    Ok(timed)
}

/// All that were measured, as they are written.
fn measured(alloc: Global, plan: &Plan, times: &[Option<u64>]) -> Result<Vec<Timed>, AllocError>
    ensures { IfOk result (λ v. v.items ≡ map (entry (micros times.now))
        (measured (tree_of plan.now) times.now)) }
{
    laws::nodes_are_a_tree(plan);
    let mut timed = Vec::new(alloc);
    'nodes: for node in 1..plan.len() {
        add(&mut timed, node, time(times, node))?;
    }
    Ok(timed)
}

/// Adds a node, where it was measured.
fn add(timed: &mut Vec<Timed>, node: u32, time: Option<u64>) -> Result<(), AllocError>
    ensures { OnOk result (timed.new.items ≡ timed.old.items ++ timed_of node time) }
{
    match time {
        Some(micros) => {
            timed.push(Timed { micros, node })?;
            Ok(())
        }
        None => Ok(()),
    }
}

/// How many microseconds a node's bodies took, none where none of them was measured.
fn time(times: &[Option<u64>], node: u32) -> Option<u64>
    ensures { result ≡ time times.now node }
{
    match times.get(node as usize) {
        Some(time) => *time,
        None => None,
    }
}
