//! Groups of keys that all nodes of a plan take alike, by the locks of its nodes.
ghost use Rattle.std.specs.Prelude.{◌≡◌, ◌<◌, ◌≤◌, ◌+◌, ℕ, None, Some, [], IfOk, length, map, slice_index_or, slice_set, true, unwrap_or};
ghost use Rattle.iso_model.specs.declared.limits.TheConstants.{KEYS};
ghost use Rattle.iso_plan.specs.KeyGroups.{AreAsBefore, AreGroups, AreOrdered, IsAsBefore, IsIdle, access_on, lead_in, on_own, split_lead, way_of};
ghost use Rattle.iso_plan.specs.Paths.{column};

use crate::lock::Lock;
use iso_model::access::Access;
use iso_model::shared_list::SharedList;
use std::alloc::{AllocError, Global};

/// The leads of the keys of a plan, by their numbers; and the locks of each node on leads, where
/// some key isn't the lead of its group.
#[derive(Drop)]
pub(crate) struct Groups {
    pub leads: Vec<u32>,
    pub lists: Option<Vec<SharedList<Lock>>>,
}

/// The groups of so many keys that nodes with these locks take alike.
pub(crate) fn group_keys(
    alloc: Global,
    locks: &[SharedList<Lock>],
    repeated: &[bool],
    keys: usize,
) -> Result<Groups, AllocError>
    requires few { keys ≤ KEYS + 1 }
    requires ordered { (n : ℕ) → n < length locks.now
        → AreOrdered keys (slice_index_or locks.now n []) }
    requires repeated { AreAsBefore locks.now repeated.now }
    ensures { IfOk result (AreGroups keys locks.now) }
{
    let leads = leads(alloc, locks, repeated, keys)?;
    if are_own(&leads) {
        return Ok(Groups { leads, lists: None });
    }
    let lists = on_leads(alloc, locks, repeated, &leads)?;
    Ok(Groups {
        leads,
        lists: Some(lists),
    })
}

/// Whether each key is its own lead.
fn are_own(leads: &[u32]) -> bool
    ensures { result ≡ true → (k : ℕ) → k < length leads.now → slice_index_or leads.now k 0 ≡ k }
{
    'keys: for key in 0..leads.len() {
        if leads[key] as usize != key {
            return false;
        }
    }
    true
}

/// The locks of each node that are on leads. A node that repeats the one before it shares that
/// one's.
fn on_leads(
    alloc: Global,
    locks: &[SharedList<Lock>],
    repeated: &[bool],
    leads: &[u32],
) -> Result<Vec<SharedList<Lock>>, AllocError>
    requires { AreAsBefore locks.now repeated.now }
    ensures { IfOk result (λ v. v.items ≡ map (on_own leads.now) locks.now) }
{
    let mut lists: Vec<SharedList<Lock>> = Vec::with_capacity(alloc, locks.len())?;
    'nodes: for n in 0..locks.len() {
        let own = if repeated[n] {
            lists[n - 1].share()?
        } else {
            SharedList::new(alloc, on_own(alloc, locks[n].as_slice(), leads)?)?
        };
        lists.push(own)?;
    }
    Ok(lists)
}

/// Of some locks those whose key is its own lead.
fn on_own(alloc: Global, locks: &[Lock], leads: &[u32]) -> Result<Vec<Lock>, AllocError>
    ensures { IfOk result (λ v. v.items ≡ on_own leads.now locks.now) }
{
    let mut kept = Vec::new(alloc);
    'locks: for lock in locks {
        if lead_of(leads, lock.key) == lock.key {
            kept.push(*lock)?;
        }
    }
    Ok(kept)
}

/// The lead of a key.
fn lead_of(leads: &[u32], key: u32) -> u32
    ensures { result ≡ slice_index_or leads.now key 0 }
{
    match leads.get(key as usize) {
        Some(lead) => *lead,
        None => 0,
    }
}

/// The lead of each key, by its number, where the nodes of a plan take these locks.
fn leads(
    alloc: Global,
    locks: &[SharedList<Lock>],
    repeated: &[bool],
    keys: usize,
) -> Result<Vec<u32>, AllocError>
    requires few { keys ≤ KEYS + 1 }
    requires ordered { (n : ℕ) → n < length locks.now
        → AreOrdered keys (slice_index_or locks.now n []) }
    requires repeated { AreAsBefore locks.now repeated.now }
    ensures { IfOk result (λ v. v.items
        ≡ column (lead_in locks.now) keys) }
{
    let mut leads = vec![in alloc; 0; keys]?;
    'nodes: for n in 0..locks.len() {
        if !is_idle(locks, repeated, n) {
            leads = split(alloc, &leads, locks[n].as_slice())?;
            if are_own(&leads) {
                return Ok(leads);
            }
        }
    }
    Ok(leads)
}

/// Whether a node splits no group, as far as its locks tell at a glance: it takes none, or those of
/// the node before it.
fn is_idle(locks: &[SharedList<Lock>], repeated: &[bool], n: usize) -> bool
    requires within { n < length locks.now }
    requires repeated { AreAsBefore locks.now repeated.now }
    ensures { result ≡ true → IsIdle locks.now n }
{
    let list = locks[n].as_slice();
    if list.is_empty() {
        return true;
    }
    is_as_before(locks, repeated, n)
}

/// Whether a node takes the locks of the node before it.
fn is_as_before(locks: &[SharedList<Lock>], repeated: &[bool], n: usize) -> bool
    requires within { n < length locks.now }
    requires repeated { AreAsBefore locks.now repeated.now }
    ensures { result ≡ true → IsAsBefore locks.now n }
{
    repeated[n] || n != 0 && same_locks(locks[n - 1].as_slice(), locks[n].as_slice())
}

/// Whether these are the same locks.
fn same_locks(some: &[Lock], others: &[Lock]) -> bool
    ensures { result ≡ true → some.now ≡ others.now }
{
    if some.len() != others.len() {
        return false;
    }
    'locks: for (i, lock) in some.iter().enumerate() {
        if *lock != others[i] {
            return false;
        }
    }
    true
}

/// The leads of groups, each of which is split into the keys that these locks take for READ, those
/// that they take for READ_WRITE, and those that they don't take.
fn split(alloc: Global, leads: &[u32], locks: &[Lock]) -> Result<Vec<u32>, AllocError>
    requires few { length leads.now ≤ KEYS + 1 }
    requires leads { (k : ℕ) → k < length leads.now
        → slice_index_or leads.now k 0 < length leads.now }
    requires ordered { AreOrdered (length leads.now) locks.now }
    ensures { IfOk result (λ v. v.items
        ≡ column (split_lead leads.now locks.now) (length leads.now)) }
{
    let ways = ways(alloc, locks, leads.len())?;
    let mut firsts = vec![in alloc; None; 3 * leads.len()]?;
    let mut split = Vec::with_capacity(alloc, leads.len())?;
    'keys: for key in 0..leads.len() {
        let place = 3 * leads[key] as usize + ways[key];
        let lead = first_or(&mut firsts, place, key as u32);
        split.push(lead)?;
    }
    Ok(split)
}

/// The first key that was noted at a place; where none was, this one is noted.
fn first_or(firsts: &mut Vec<Option<u32>>, place: usize, key: u32) -> u32
    requires { place < length firsts.old.items }
    ensures first { result ≡ unwrap_or (slice_index_or firsts.old.items place None) key }
    ensures noted { firsts.new.items ≡ slice_set firsts.old.items place (Some result) }
{
    let first = firsts[place].unwrap_or(key);
    firsts[place] = Some(first);
    first
}

/// Of each key a number for how locks take it, if they do.
fn ways(alloc: Global, locks: &[Lock], keys: usize) -> Result<Vec<usize>, AllocError>
    requires { AreOrdered keys locks.now }
    ensures { IfOk result (λ v. v.items ≡ column (λ k. way_of (access_on k locks.now)) keys) }
{
    let mut ways = vec![in alloc; 0; keys]?;
    'locks: for lock in locks {
        ways[lock.key as usize] = way_of(lock.access);
    }
    Ok(ways)
}

/// A number for an access.
fn way_of(access: Access) -> usize
    ensures { result ≡ way_of (Some access) }
{
    match access {
        Access::Read => 1,
        Access::Write => 2,
    }
}
