//! How the keys of a run were used.
ghost use Rattle.std.specs.Prelude.{◌≡◌, ◌<◌, ℕ, IfOk, length, slice_index_or};
ghost use Rattle.std.specs.List.{fold};
ghost use Rattle.iso_html.specs.KeyUses.{no_usage, stay_time, with_wait_for, usage_at, usage_below, usages, with_lock, with_taker, with_wait};
ghost use Rattle.iso_plan.specs.KeyTable.{keys};
ghost use Rattle.iso_plan.specs.Paths.{column};
ghost use Rattle.iso_plan.specs.RowView.{tree_of};
ghost use Rattle.iso_waits.specs.Stays.{stayed};

use iso_model::access::Access;
use iso_plan::lock::Lock;
use iso_plan::plan::Plan;
use iso_times::times::Times;
use iso_waits::stay::stayed;
use iso_waits::wait::NodeWait;
use std::alloc::{AllocError, Global};

/// How a key was used: how many nodes take it for READ and for READ_WRITE, how many nanoseconds
/// they were entered, added up, how many nodes waited for it, and how many nanoseconds, added up.
#[derive(Clone, Copy)]
pub struct Usage {
    pub readers: u64,
    pub writers: u64,
    pub held: u64,
    pub waits: u64,
    pub waited: u64,
}

impl Usage {
    /// Nobody took it.
    fn none() -> Usage
        ensures { result ≡ no_usage }
    {
        Usage {
            readers: 0,
            writers: 0,
            held: 0,
            waits: 0,
            waited: 0,
        }
    }

    /// The same with one node more, which takes it so and was entered for a time.
    fn with_taker(self, access: Access, time: u64) -> Usage
        ensures { result ≡ with_taker access time self }
    {
        let held = self.held.saturating_add(time);
        match access {
            Access::Read => Usage {
                readers: self.readers.saturating_add(1),
                held,
                ..self
            },
            Access::Write => Usage {
                writers: self.writers.saturating_add(1),
                held,
                ..self
            },
        }
    }

    /// The same with one node more, which waited for it for a time.
    fn with_wait(self, time: u64) -> Usage
        ensures { result ≡ with_wait time self }
    {
        Usage {
            waits: self.waits.saturating_add(1),
            waited: self.waited.saturating_add(time),
            ..self
        }
    }
}

/// How each key of a run was used, by its number.
pub(crate) fn usages(
    alloc: Global,
    plan: &Plan,
    times: &Times,
    waits: &[NodeWait],
) -> Result<Vec<Usage>, AllocError>
    ensures { IfOk result (λ v. v.items ≡ usages (tree_of plan.now) times.now waits.now) }
{
    let mut usages = taken(alloc, plan, times)?;
    add_waits(&mut usages, waits);
    Ok(usages)
}

/// How each key was taken.
fn taken(alloc: Global, plan: &Plan, times: &Times) -> Result<Vec<Usage>, AllocError>
    ensures { IfOk result (λ v. v.items
        ≡ column (λ key. usage_below (tree_of plan.now) times.now key (length plan.now.rows))
        (length (keys (tree_of plan.now)))) }
{
    let mut usages = vec![in alloc; Usage::none(); plan.key_count() as usize]?;
    'nodes: for node in 0..plan.len() {
        add_locks(&mut usages, plan.locks(node), stay_time(times, node));
    }
    Ok(usages)
}

/// Adds a node that takes these locks and was entered for a time.
fn add_locks(usages: &mut [Usage], locks: &[Lock], time: u64)
    ensures { (k : ℕ) → k < length usages.old → usage_at usages.new k
        ≡ fold (with_lock k time) (usage_at usages.old k) locks.now }
{
    'locks: for lock in locks {
        add_lock(usages, *lock, time);
    }
}

/// Adds a lock of such a node to the usage of its key.
fn add_lock(usages: &mut [Usage], lock: Lock, time: u64)
    ensures { (k : ℕ) → k < length usages.old → usage_at usages.new k
        ≡ with_lock k time (usage_at usages.old k) lock }
{
    let place = lock.key as usize;
    if place < usages.len() {
        usages[place] = usages[place].with_taker(lock.access, time);
    }
}

/// How long a node was entered.
fn stay_time(times: &Times, node: u32) -> u64
    ensures { result ≡ stay_time (stayed times.now node) }
{
    match stayed(times, node) {
        Some(stay) => stay.end.saturating_sub(stay.begin),
        None => 0,
    }
}

/// Adds waits to the usages of their keys.
fn add_waits(usages: &mut [Usage], waits: &[NodeWait])
    ensures { (k : ℕ) → k < length usages.old → usage_at usages.new k
        ≡ fold (with_wait_for k) (usage_at usages.old k) waits.now }
{
    for wait in waits {
        add_wait(usages, *wait);
    }
}

/// Adds a wait to the usage of its key.
fn add_wait(usages: &mut [Usage], wait: NodeWait)
    ensures { (k : ℕ) → k < length usages.old → usage_at usages.new k
        ≡ with_wait_for k (usage_at usages.old k) wait }
{
    let place = wait.key as usize;
    if place < usages.len() {
        usages[place] = usages[place].with_wait(wait.time);
    }
}

/// The usage of the key with a number.
pub(crate) fn usage_at(usages: &[Usage], key: u32) -> Usage
    ensures { result ≡ usage_at usages.now key }
{
    match usages.get(key as usize) {
        Some(usage) => *usage,
        None => Usage::none(),
    }
}
