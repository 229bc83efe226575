//! Which keys the held nodes take, as marks: what is on offer is read off them. Of keys that all
//! nodes take alike the lowest alone is marked, their lead (`Plan::lead`): it tells of the others.
ghost use Rattle.std.specs.Prelude.{◌≡◌, ◌<◌, ◌≤◌, ◌==◌, ◌||◌, ℕ, IfOk, cond, false, length, true};
ghost use Rattle.std.specs.List.{All};
ghost use Rattle.iso_desk.specs.Marking.{has, room};
ghost use Rattle.iso_floor.specs.KeyMarks.{AreMarks, AreRenewed};
ghost use Rattle.iso_plan.specs.KeyTable.{keys};
ghost use Rattle.iso_plan.specs.RowView.{tree_of};

use iso_desk::marks::Marks;
use iso_model::access::Access;
use iso_plan::held_nodes::HeldNodes;
use iso_plan::lock::Lock;
use std::alloc::{AllocError, Global};
use std::marker::Model;

/// The most keys that a plan has, the global key among them.
pub(crate) const KEYS: usize = 256;

/// Of the leads of keys those that a held node takes, and those that one takes for READ_WRITE.
#[derive(Drop)]
pub(crate) struct HeldKeys {
    held: Marks,
    written: Marks,
}

impl Model for HeldKeys {
    ghost use Rattle.iso_floor.specs.KeyMarks.{AreMarks, KeysView};

    ghost Value = { KeysView };

    ghost view = { λ k. record { held = k.held; written = k.written } };

    ghost invariant = { λ k. AreMarks (record { held = k.held; written = k.written }) };
}

impl HeldKeys {
    /// Of a run in which no node is held. It takes all memory that its calls need.
    pub(crate) fn new(alloc: Global) -> Result<HeldKeys, AllocError>
        ensures held { IfOk result (λ v. (k : ℕ) → has v.held k ≡ false) }
        ensures written { IfOk result (λ v. (k : ℕ) → has v.written k ≡ false) }
    {
        Ok(HeldKeys {
            held: Marks::new(alloc, KEYS)?,
            written: Marks::new(alloc, KEYS)?,
        })
    }

    /// The keys that a held node takes.
    pub(crate) fn held(&self) -> &Marks
        ensures keys { result.now ≡ self.now.held }
        ensures room { 256 ≤ room result.now }
    {
        &self.held
    }

    /// The keys that a held node takes for READ_WRITE.
    pub(crate) fn written(&self) -> &Marks
        ensures keys { result.now ≡ self.now.written }
        ensures room { 256 ≤ room result.now }
        ensures both { (k : ℕ) → k < 256 → has result.now k ≡ true → has self.now.held k ≡ true }
    {
        &self.written
    }

    /// The keys of these locks are taken as the held nodes take them: after a node with these locks
    /// was entered or is over.
    pub(crate) fn renew(&mut self, nodes: &HeldNodes<'_>, locks: &[Lock])
        requires { All (λ l. l.key < length (keys (tree_of nodes.now.plan))) locks.now }
        ensures { AreRenewed (tree_of nodes.now.plan) nodes.now.held locks.now self.old self.new }
    {
        renew(&mut self.held, &mut self.written, nodes, locks);
    }
}

/// Marks the keys of some locks as the held nodes take them.
fn renew(held: &mut Marks, written: &mut Marks, nodes: &HeldNodes<'_>, locks: &[Lock])
    requires known { All (λ l. l.key < length (keys (tree_of nodes.now.plan))) locks.now }
    requires marks { AreMarks (record { held = held.old; written = written.old }) }
    ensures marks { AreMarks (record { held = held.new; written = written.new }) }
    ensures keys { AreRenewed (tree_of nodes.now.plan) nodes.now.held locks.now
        (record { held = held.old; written = written.old })
        (record { held = held.new; written = written.new }) }
{
    'locks: for lock in locks {
        let key = lock.key as usize;
        if key < KEYS {
            let writes = nodes.takers(lock.key, Access::Write) != 0;
            let reads = nodes.takers(lock.key, Access::Read) != 0;
            mark(held, written, key, writes, reads);
        }
    }
}

/// Marks a key as it is written and read by held nodes.
fn mark(held: &mut Marks, written: &mut Marks, key: usize, writes: bool, reads: bool)
    requires key { key < 256 }
    requires marks { AreMarks (record { held = held.old; written = written.old }) }
    ensures marks { AreMarks (record { held = held.new; written = written.new }) }
    ensures written { (k : ℕ) → has written.new k ≡ cond (k == key) writes (has written.old k) }
    ensures held { (k : ℕ) → has held.new k ≡ cond (k == key) (writes || reads) (has held.old k) }
{
    written.set(key, writes);
    held.set(key, writes || reads);
}
