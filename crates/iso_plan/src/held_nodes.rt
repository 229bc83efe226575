//! The held nodes of a plan, with how many of them read and write each key, so that what is in
//! a node's way costs its own locks. Keys that all nodes take alike are counted as one.
ghost use Rattle.std.specs.Prelude.{◌≡◌, ◌<◌, ◌+◌, ◌^◌, IfOk, is_some, length, not};
ghost use Rattle.std.specs.List.{All};
ghost use Rattle.iso_plan.specs.Conflicts.{lowest_in_the_way};
ghost use Rattle.iso_plan.specs.HeldNodes.{CanAdd, CanRemove, added, any_excluded, any_held, counted, excluded, holding, is_held, none_held, one_less, one_more, releasing, removed, takers};
ghost use Rattle.iso_plan.specs.KeyTable.{keys};
ghost use Rattle.iso_plan.specs.RowView.{tree_of};

use crate::conflict::Holders;
use crate::laws;
use crate::lock::Lock;
use crate::node_set::NodeSet;
use crate::plan::Plan;
use iso_model::access::Access;
use std::alloc::{AllocError, Global};
use std::marker::Model;

/// The held nodes of a plan. Contracts see these alone; beside them stands how many of them read
/// and write each lead of a group of keys.
pub struct HeldNodes<'a> {
    plan: &'a Plan,
    held: NodeSet,
    uses: Vec<KeyUse>,
}

impl<'a> Drop for HeldNodes<'a> {
    fn drop(self) {
        let HeldNodes {
            plan: _,
            held: _,
            uses: _,
        } = self;
    }
}

/// How many held nodes read a key, and how many write it.
#[derive(Clone, Copy)]
struct KeyUse {
    reading: usize,
    writing: usize,
}

impl<'a> Model for HeldNodes<'a> {
    ghost use Rattle.iso_plan.specs.HeldNodes.{AreLeadsCounted, HeldView, held_code};
    ghost use Rattle.iso_plan.specs.RowView.{tree_of};

    ghost Value = { HeldView };

    ghost coded = { held_code };

    ghost view = { λ h. record { plan = h.plan.now; held = h.held } };

    ghost invariant = { λ h. AreLeadsCounted (tree_of h.plan.now) h.held h.uses.items };
}

impl<'a> HeldNodes<'a> {
    /// Of a plan, none. It takes all memory that holding nodes needs.
    pub fn new(alloc: Global, plan: &'a Plan) -> Result<HeldNodes<'a>, AllocError>
        ensures { IfOk result (λ v. v ≡ none_held plan.now) }
    {
        let unused = KeyUse {
            reading: 0,
            writing: 0,
        };
        Ok(HeldNodes {
            plan,
            held: NodeSet::new(alloc, plan.len() as usize)?,
            uses: vec![in alloc; unused; plan.key_count() as usize]?,
        })
    }

    /// Whether a node is held.
    pub fn is_held(&self, node: u32) -> bool
        requires { node < length self.now.plan.rows }
        ensures { result ≡ is_held self.now.held node }
    {
        self.held.has(node as usize)
    }

    /// Whether no node is held.
    pub fn is_empty(&self) -> bool
        ensures { result ≡ not (any_held self.now.held) }
    {
        self.held.is_empty()
    }

    /// Holds a node, if it isn't held yet. Takes no memory.
    pub fn hold(&mut self, node: u32)
        requires { node < length self.old.plan.rows }
        ensures { self.new ≡ holding node self.old }
    {
        laws::nodes_are_few(self.plan);
        if !self.held.has(node as usize) {
            let locks = self.plan.lead_locks(node);
            self.held.put_in(node as usize);
            add(&mut self.uses, locks);
        }
    }

    /// Releases a node, if it is held. Takes no memory.
    pub fn release(&mut self, node: u32)
        requires { node < length self.old.plan.rows }
        ensures { self.new ≡ releasing node self.old }
    {
        if self.held.has(node as usize) {
            let locks = self.plan.lead_locks(node);
            self.held.take_out(node as usize);
            remove(&mut self.uses, locks);
        }
    }

    /// How many held nodes take a key so, by the key's number.
    pub fn takers(&self, key: u32, access: Access) -> usize
        requires { key < length (keys (tree_of self.now.plan)) }
        ensures { result ≡ takers (tree_of self.now.plan) self.now.held access key }
    {
        self.uses[self.plan.lead(key) as usize].takers(access)
    }

    /// Whether a held node conflicts with a node. It looks at the node's own lead locks, however
    /// many nodes are held. Takes no memory.
    pub fn excludes(&self, node: u32) -> bool
        requires { node < length self.now.plan.rows }
        ensures { result ≡ is_some
            (lowest_in_the_way (tree_of self.now.plan) (is_held self.now.held) node) }
    {
        any_excluded(&self.uses, self.plan.lead_locks(node))
    }
}

impl<'a> Holders for HeldNodes<'a> {
    ghost use Rattle.std.specs.Prelude.{length};
    ghost use Rattle.iso_plan.specs.HeldNodes.{HeldView, is_held};

    ghost nodes = { λ (v : HeldView). length v.plan.rows };

    ghost held = { λ (v : HeldView). is_held v.held };

    fn is_held(&self, node: u32) -> bool {
        self.is_held(node)
    }
}

impl KeyUse {
    /// With one node more that takes the key so.
    fn one_more(self, access: Access) -> KeyUse
        requires { counted access self + 1 < 2 ^ 64 }
        ensures { result ≡ one_more access self }
    {
        let KeyUse { reading, writing } = self;
        match access {
            Access::Read => KeyUse {
                reading: reading + 1,
                writing,
            },
            Access::Write => KeyUse {
                reading,
                writing: writing + 1,
            },
        }
    }

    /// With one node less that takes the key so.
    fn one_less(self, access: Access) -> KeyUse
        requires { 0 < counted access self }
        ensures { result ≡ one_less access self }
    {
        let KeyUse { reading, writing } = self;
        match access {
            Access::Read => KeyUse {
                reading: reading - 1,
                writing,
            },
            Access::Write => KeyUse {
                reading,
                writing: writing - 1,
            },
        }
    }

    /// How many nodes take the key so.
    fn takers(self, access: Access) -> usize
        ensures { result ≡ counted access self }
    {
        match access {
            Access::Read => self.reading,
            Access::Write => self.writing,
        }
    }

    /// Whether a node that takes the key so has to wait.
    fn excludes(self, lock: Lock) -> bool
        ensures { result ≡ excluded self lock }
    {
        match lock.access {
            Access::Read => self.writing != 0,
            Access::Write => self.writing != 0 || self.reading != 0,
        }
    }
}

/// Counts the locks of a node that is held from now on.
fn add(uses: &mut Vec<KeyUse>, locks: &[Lock])
    requires { CanAdd locks.now uses.old.items }
    ensures { uses.new.items ≡ added locks.now uses.old.items }
{
    for lock in locks {
        let key = lock.key as usize;
        uses[key] = uses[key].one_more(lock.access);
    }
}

/// Counts the locks of a node no longer.
fn remove(uses: &mut Vec<KeyUse>, locks: &[Lock])
    requires { CanRemove locks.now uses.old.items }
    ensures { uses.new.items ≡ removed locks.now uses.old.items }
{
    for lock in locks {
        let key = lock.key as usize;
        uses[key] = uses[key].one_less(lock.access);
    }
}

/// Whether what is counted excludes one of some locks.
fn any_excluded(uses: &[KeyUse], locks: &[Lock]) -> bool
    requires { All (λ l. l.key < length uses.now) locks.now }
    ensures { result ≡ any_excluded uses.now locks.now }
{
    for lock in locks {
        if uses[lock.key as usize].excludes(*lock) {
            return true;
        }
    }
    false
}
