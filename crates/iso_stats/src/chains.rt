//! The longest chain of a run.
ghost use Rattle.std.specs.Prelude.{◌<◌, length};

use crate::figures::{Chain, Link};
use crate::modes::Freed;
use crate::serial::time_of;
use crate::tally::Tally;
use iso_model::access::Access;
use iso_model::script::Mode;
use iso_plan::lock::Lock;
use iso_plan::plan::Plan;

/// The longest of the chains of keys, but one that is left out, and of classes, where nodes take so
/// long; of equal ones the first.
pub(crate) fn longest(
    plan: &Plan,
    times: &[u64],
    freed: &Freed,
    left_out: Option<u32>,
) -> Option<Chain> {
    let by_key = longest_of_keys(plan, times, left_out);
    let by_class = longest_of_classes(plan, times, freed);
    longer(by_key, by_class)
}

/// The longer of two chains, the first of equal ones.
fn longer(first: Option<Chain>, second: Option<Chain>) -> Option<Chain> {
    match (first, second) {
        (Some(one), Some(other)) => { if one.time < other.time { second } else { first } }
        (None, _) => second,
        (_, None) => first,
    }
}

/// The longest chain of a key.
fn longest_of_keys(plan: &Plan, times: &[u64], left_out: Option<u32>) -> Option<Chain> {
    let mut found = None;
    'keys: for key in 0..plan.key_count() {
        if left_out != Some(key) {
            found = longer(found, chain_of_key(plan, times, key));
        }
    }
    found
}

/// The chain of a key: of all nodes that take it for READ_WRITE, and of the one that takes longest
/// of those that take it for READ. None where no node takes it for READ_WRITE.
fn chain_of_key(plan: &Plan, times: &[u64], key: u32) -> Option<Chain> {
    let mut tally = Tally::none();
    let mut reader = None;
    'nodes: for node in 1..plan.len() {
        match access(plan.locks(node), key) {
            Some(Access::Write) => tally.add(node, time_of(times, node)),
            Some(Access::Read) => reader = Some(slower(times, reader, node)),
            None => {}
        }
    }
    tally.chain(Link::Key(key))?;
    if let Some(node) = reader {
        tally.add(node, time_of(times, node));
    }
    tally.chain(Link::Key(key))
}

/// Of a node that was found, if one was, and another the one that takes longer.
fn slower(times: &[u64], found: Option<u32>, node: u32) -> u32 {
    match found {
        Some(found) if time_of(times, node) <= time_of(times, found) => found,
        _ => node,
    }
}

/// How a key is taken by one of some locks.
fn access(locks: &[Lock], key: u32) -> Option<Access> {
    for lock in locks {
        if lock.key == key {
            return Some(lock.access);
        }
    }
    None
}

/// The longest chain of a class, or of the root.
fn longest_of_classes(plan: &Plan, times: &[u64], freed: &Freed) -> Option<Chain> {
    let mut found = None;
    'classes: for class in 0..plan.len() {
        found = longer(found, chain_of_class(plan, times, freed, class));
    }
    found
}

/// The chain of a class: of its SAME_THREAD children.
fn chain_of_class(plan: &Plan, times: &[u64], freed: &Freed, class: u32) -> Option<Chain>
    requires { class < length plan.now.rows }
{
    let mut tally = Tally::none();
    for child in plan.children(class) {
        if *child < plan.len() && matches!(freed.mode(plan, *child), Mode::SameThread) {
            tally.add(*child, time_of(times, *child));
        }
    }
    tally.chain(Link::Class(class))
}
