//! Which key is in a node's way.
ghost use Rattle.std.specs.Prelude.{◌≡◌, ◌<◌, IfSome, MatchOption, false, is_some, length, true};
ghost use Rattle.std.specs.List.{All, list_any};
ghost use Rattle.iso_floor.specs.KeyMarks.{is_excluded};
ghost use Rattle.iso_plan.specs.Conflicts.{lowest_in_the_way};
ghost use Rattle.iso_plan.specs.HeldNodes.{is_held, takes_in};
ghost use Rattle.iso_plan.specs.KeyGroups.{lead_locks};
ghost use Rattle.iso_plan.specs.KeyTable.{keys};
ghost use Rattle.iso_plan.specs.RowView.{tree_of};

use iso_model::access::Access;
use iso_plan::held_nodes::HeldNodes;
use iso_plan::lock::Lock;
use iso_plan::plan::Plan;
use std::alloc::{AllocError, Global};

/// Of nodes with the same locks, the key that excluded one of them last: it is looked at first. A
/// lock counts where some node of the plan takes its key for READ_WRITE and another node takes it
/// too: no other lock ever excludes a node.
///
/// A node has its place by a number that is made of its locks that count. Two nodes with other
/// locks may share a place: that costs time, and changes no answer.
#[derive(Drop)]
pub(crate) struct Hints {
    /// By node.
    places: Vec<u32>,
    /// By place.
    keys: Vec<u32>,
}

/// How many nodes of a plan take a key, and whether one takes it for READ_WRITE.
#[derive(Clone, Copy)]
struct Takers {
    count: u32,
    writes: bool,
}

impl Takers {
    fn with(self, access: Access) -> Takers {
        Takers {
            count: self.count.saturating_add(1),
            writes: self.writes || access == Access::Write,
        }
    }

    /// Whether the key can exclude a node.
    fn counts(self) -> bool {
        self.writes && self.count > 1
    }
}

impl Hints {
    /// Of a plan, none. It takes all memory that its calls need, and goes over all lead locks.
    pub(crate) fn new(alloc: Global, plan: &Plan) -> Result<Hints, AllocError> {
        Ok(Hints {
            places: places_of(alloc, plan)?,
            keys: vec![in alloc; 0; plan.len() as usize]?,
        })
    }

    /// A lead lock of a node on whose key a held node excludes it; the one that is looked at first,
    /// or else the first of them. None where no held node conflicts with the node.
    pub(crate) fn lock_in_the_way(
        &mut self,
        plan: &Plan,
        held: &HeldNodes<'_>,
        node: u32,
    ) -> Option<Lock>
        requires plan { plan.now ≡ held.now.plan }
        requires node { node < length plan.now.rows }
        ensures key { IfSome result (λ l. l.key < length (keys (tree_of plan.now))) }
        ensures own { IfSome result
            (λ l. takes_in l.access l.key (lead_locks (tree_of plan.now) node) ≡ true) }
        ensures excluded { MatchOption result
            (is_some (lowest_in_the_way (tree_of plan.now) (is_held held.now.held) node) ≡ false)
            (λ l. is_excluded (tree_of plan.now) held.now.held l ≡ true) }
    {
        let locks = plan.lead_locks(node);
        let place = self.places.get(node as usize).copied().unwrap_or(0);
        let hint = self.keys.get(place as usize).copied().unwrap_or(0);
        if let Some(lock) = excluded_on(held, locks, hint) {
            return Some(lock);
        }
        let lock = first_excluded(held, locks)?;
        if let Some(hint) = self.keys.get_mut(place as usize) {
            *hint = lock.key;
        }
        Some(lock)
    }
}

/// The places of a plan's nodes: one for all, where there is no key but the global one.
fn places_of(alloc: Global, plan: &Plan) -> Result<Vec<u32>, AllocError> {
    if plan.key_count() == 1 {
        return vec![in alloc; 0; plan.len() as usize];
    }
    let takers = takers_of(alloc, plan)?;
    let mut places = Vec::with_capacity(alloc, plan.len() as usize)?;
    for node in 0..plan.len() {
        places.push(place_of(plan.lead_locks(node), &takers, plan.len()))?;
    }
    Ok(places)
}

/// How the nodes of a plan take each key.
fn takers_of(alloc: Global, plan: &Plan) -> Result<Vec<Takers>, AllocError> {
    let unused = Takers {
        count: 0,
        writes: false,
    };
    let mut takers = vec![in alloc; unused; plan.key_count() as usize]?;
    for node in 0..plan.len() {
        add_locks(&mut takers, plan.lead_locks(node));
    }
    Ok(takers)
}

/// Adds a node that takes these locks.
fn add_locks(takers: &mut Vec<Takers>, locks: &[Lock]) {
    for lock in locks {
        if let Some(taken) = takers.get_mut(lock.key as usize) {
            *taken = taken.with(lock.access);
        }
    }
}

/// A number below the number of nodes that is made of those of these locks that count.
fn place_of(locks: &[Lock], takers: &[Takers], nodes: u32) -> u32 {
    let mut number: u64 = 0;
    for lock in locks {
        if takers
            .get(lock.key as usize)
            .is_some_and(|taken| taken.counts())
        {
            let writes = u64::from(lock.access == Access::Write);
            let next = 2 * u64::from(lock.key) + writes + 1;
            number = (number ^ next)
                .wrapping_mul(0x9E37_79B9_7F4A_7C15)
                .rotate_left(23);
        }
    }
    (number % u64::from(nodes.max(1))) as u32
}

/// The lock on a key, of locks that stand in the order of their keys, where a held node excludes
/// it.
fn excluded_on(held: &HeldNodes<'_>, locks: &[Lock], key: u32) -> Option<Lock>
    requires { All (λ l. l.key < length (keys (tree_of held.now.plan))) locks.now }
    ensures key { IfSome result (λ l. l.key < length (keys (tree_of held.now.plan))) }
    ensures own { IfSome result (λ l. takes_in l.access l.key locks.now ≡ true) }
    ensures excluded { IfSome result
        (λ l. is_excluded (tree_of held.now.plan) held.now.held l ≡ true) }
{
    let at = locks.partition_point(|lock| lock.key < key);
    let lock = *locks.get(at)?;
    if lock.key == key && excludes(held, lock) {
        Some(lock)
    } else {
        None
    }
}

/// The first of some locks on whose key a held node excludes them.
fn first_excluded(held: &HeldNodes<'_>, locks: &[Lock]) -> Option<Lock>
    requires { All (λ l. l.key < length (keys (tree_of held.now.plan))) locks.now }
    ensures key { IfSome result (λ l. l.key < length (keys (tree_of held.now.plan))) }
    ensures own { IfSome result (λ l. takes_in l.access l.key locks.now ≡ true) }
    ensures excluded { MatchOption result
        (list_any (is_excluded (tree_of held.now.plan) held.now.held) locks.now ≡ false)
        (λ l. is_excluded (tree_of held.now.plan) held.now.held l ≡ true) }
{
    'locks: for lock in locks {
        if excludes(held, *lock) {
            return Some(*lock);
        }
    }
    None
}

/// Whether a held node excludes a lock: it takes the key too, one of the two for READ_WRITE.
fn excludes(held: &HeldNodes<'_>, lock: Lock) -> bool
    requires { lock.key < length (keys (tree_of held.now.plan)) }
    ensures { result ≡ is_excluded (tree_of held.now.plan) held.now.held lock }
{
    let writes = held.takers(lock.key, Access::Write) != 0;
    match lock.access {
        Access::Read => writes,
        Access::Write => writes || held.takers(lock.key, Access::Read) != 0,
    }
}
