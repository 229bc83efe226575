//! What single waits add up to, by the keys that they are for.
ghost use Rattle.std.specs.Prelude.{◌≡◌, ◌==◌, ◌++◌, ◌<◌, ℕ, [], None, OnOk, Some, cond, length, slice_index_or};
ghost use Rattle.std.specs.List.{All};
ghost use Rattle.std.specs.Option.{option_to_list};
ghost use Rattle.iso_plan.specs.RowView.{tree_of};
ghost use Rattle.iso_waits.specs.AllWaits.{IsFor, alone, and_then, key_of, took, with_later};
ghost use Rattle.iso_waits.specs.Sums.{AreSums, of_node, sum_at, sums_of};

use crate::wait::{NodeWait, Wait};
use crate::waits::Waits;
use iso_plan::lock::Lock;
use std::alloc::AllocError;

/// Adds up the single waits of a node, in a table that has a place for each key. What it has of
/// nodes before this one counts for nothing.
pub(crate) fn add_up(sums: &mut Vec<Option<NodeWait>>, told: &Waits<'_>, node: u32, waits: &[Wait])
    requires node { node < length told.now.plan.rows }
    requires waits { All (IsFor (tree_of told.now.plan) node) waits.now }
    requires sums { AreSums (tree_of told.now.plan) node [] sums.old.items }
    ensures { AreSums (tree_of told.now.plan) node waits.now sums.new.items }
{
    for wait in waits {
        note(sums, node, key_of(told, node, *wait), *wait);
    }
}

/// The key that a node waits for by a single wait: the lowest on which the two nodes conflict.
fn key_of(told: &Waits<'_>, node: u32, wait: Wait) -> u32
    requires node { node < length told.now.plan.rows }
    requires holder { wait.holder < length told.now.plan.rows }
    ensures { result ≡ key_of (tree_of told.now.plan) node wait }
{
    match told.key(node, wait.holder) {
        Some(key) => key,
        None => 0,
    }
}

/// Adds a single wait of a node for a key, where the table has a place for that.
fn note(sums: &mut Vec<Option<NodeWait>>, node: u32, key: u32, wait: Wait)
    ensures size { length sums.new.items ≡ length sums.old.items }
    ensures noted { (k : ℕ) → k < length sums.old.items → slice_index_or sums.new.items k None
        ≡ cond (key == k) (Some (and_then node key (sum_at node sums.old.items k) wait))
        (slice_index_or sums.old.items k None) }
{
    let place = key as usize;
    if place < sums.len() {
        let before = of_node(sums[place], node);
        sums[place] = Some(and_then(before, node, key, wait));
    }
}

/// A sum, where it is that of a node.
fn of_node(sum: Option<NodeWait>, node: u32) -> Option<NodeWait>
    ensures { result ≡ of_node node sum }
{
    match sum {
        Some(sum) if sum.node == node => Some(sum),
        _ => None,
    }
}

/// What came before, if something did, with a single wait more.
fn and_then(before: Option<NodeWait>, node: u32, key: u32, wait: Wait) -> NodeWait
    ensures { result ≡ and_then node key before wait }
{
    match before {
        Some(sum) => with_later(sum, wait),
        None => alone(node, key, wait),
    }
}

/// A single wait of a node for a key by itself.
fn alone(node: u32, key: u32, wait: Wait) -> NodeWait
    ensures { result ≡ alone node key wait }
{
    let took = took(wait);
    NodeWait {
        node,
        key,
        begin: wait.begin,
        end: wait.end,
        time: took,
        count: 1,
        longest: took,
        holder: wait.holder,
        last: wait.holder,
    }
}

/// A sum with a single wait more.
fn with_later(sum: NodeWait, wait: Wait) -> NodeWait
    ensures { result ≡ with_later sum wait }
{
    let took = took(wait);
    let longer = sum.longest < took;
    NodeWait {
        node: sum.node,
        key: sum.key,
        begin: sum.begin,
        end: wait.end,
        time: sum.time.saturating_add(took),
        count: sum.count.saturating_add(1),
        longest: sum.longest.max(took),
        holder: if longer { wait.holder } else { sum.holder },
        last: wait.holder,
    }
}

/// How long a single wait is.
fn took(wait: Wait) -> u64
    ensures { result ≡ took wait }
{
    wait.end.saturating_sub(wait.begin)
}

/// Adds the sums of a node that a table has for the keys of some locks to others.
pub(crate) fn append(
    all: &mut Vec<NodeWait>,
    sums: &[Option<NodeWait>],
    locks: &[Lock],
    node: u32,
) -> Result<(), AllocError>
    ensures { OnOk result (all.new.items ≡ all.old.items ++ sums_of node sums.now locks.now) }
{
    for lock in locks {
        add(all, sum_at(sums, node, lock.key))?;
    }
    Ok(())
}

/// The sum of a node that a table has for a key.
fn sum_at(sums: &[Option<NodeWait>], node: u32, key: u32) -> Option<NodeWait>
    ensures { result ≡ sum_at node sums.now key }
{
    of_node(*sums.get(key as usize)?, node)
}

/// Adds a wait, if there is one.
fn add(all: &mut Vec<NodeWait>, wait: Option<NodeWait>) -> Result<(), AllocError>
    ensures { OnOk result (all.new.items ≡ all.old.items ++ option_to_list wait) }
{
    if let Some(wait) = wait {
        all.push(wait)?;
    }
    Ok(())
}
