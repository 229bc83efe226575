//! The values that no worker holds.
ghost use Rattle.std.specs.Prelude.{◌≡◌, ◌<◌, ℕ, IfOk, MatchResult, None, OnErr, OnOk, Some, false, is_some, length, map, replicate, true};
ghost use Rattle.iso_locks.specs.Moves.{AreAllButFirst};
ghost use Rattle.iso_locks.specs.Slots.{slot};
ghost use Rattle.iso_locks.specs.Trays.{is_lent, key_at};
ghost use Rattle.iso_locks.specs.Vaults.{CanLend, CanTakeBack, IsLentTo, IsOneGroup, busy, giving_back, is_home, lending, regaining, whole_vault};
ghost use Rattle.iso_locks.specs.declared.moves.Moves.TheVariants.{AllButFirst, Nothing};
ghost use Rattle.iso_plan.specs.KeyTable.{keys};
ghost use Rattle.iso_plan.specs.Locks.{locks, takes_write};
ghost use Rattle.iso_plan.specs.RowView.{tree_of};
ghost use Rattle.iso_settings.specs.Worlds.{starting_value_in};
ghost use Rattle.iso_store.specs.Histories.{History};

use crate::moves::{Moves, begin_at_second};
use crate::slots::Slots;
use crate::tray::Tray;
use iso_model::key::Key;
use iso_model::text::Text;
use iso_plan::conflict::{Holders, lowest_in_the_way};
use iso_plan::held_nodes::HeldNodes;
use iso_plan::plan::Plan;
use iso_settings::world::World;
use iso_store::held::Held;
use std::alloc::{AllocError, Global};
use std::marker::Model;

/// The values of fewer keys than these move one by one, which costs less than to move them all.
const MANY_KEYS: u32 = 8;

/// A node can't be lent: the lowest lent node that conflicts with it.
#[derive(Debug, Clone, Copy, PartialEq, Eq)]
pub struct Busy {
    pub node: u32,
}

/// The values that are lent to nobody, each at its start, and the nodes that are lent.
pub struct Vault<'a> {
    plan: &'a Plan,
    world: &'a World,
    lent: HeldNodes<'a>,
    /// Whether each node takes all keys but the global one alike, or none of them.
    is_one_group: bool,
    values: Slots,
}

impl<'a> Drop for Vault<'a> {
    fn drop(self) {
        let Vault {
            plan: _,
            world: _,
            lent: _,
            is_one_group: _,
            values: _,
        } = self;
    }
}

impl<'a> Model for Vault<'a> {
    ghost use Rattle.std.specs.Prelude.{is_some, map};
    ghost use Rattle.iso_locks.specs.Vaults.{KeepsVault, VaultView, vault_code};

    ghost Value = { VaultView };

    ghost coded = { vault_code };

    ghost view = { λ v. record {
      plan = v.plan.now;
      world = v.world.now;
      lent = v.lent.held;
      home = map is_some v.values;
    } };

    ghost invariant = { λ v. KeepsVault v.plan.now v.world.now v.lent v.is_one_group
        v.values };
}

impl<'a> Vault<'a> {
    /// A vault for a plan and a world, in which every value is home. It takes all memory that
    /// lending and taking back need.
    pub fn new(alloc: Global, plan: &'a Plan, world: &'a World) -> Result<Vault<'a>, AllocError>
        ensures { IfOk result (λ v. v ≡ whole_vault plan.now world.now) }
    {
        Ok(Vault {
            plan,
            world,
            lent: HeldNodes::new(alloc, plan)?,
            is_one_group: is_one_group(plan),
            values: values(alloc, plan, world)?,
        })
    }

    /// Whether a node was lent and not taken back.
    pub fn is_lent(&self, node: u32) -> bool
        requires { node < length self.now.plan.rows }
        ensures { result ≡ is_lent self.now.lent node }
    {
        self.lent.is_held(node)
    }

    /// For a runner of one's own: whether the value of the key with a number is home.
    pub fn home(&self, key: u32) -> bool
        requires { key < length (keys (tree_of self.now.plan)) }
        ensures { result ≡ is_home self.now.home key }
    {
        self.values.get(key as usize).is_some()
    }

    /// Lends a node to a tray: each value that the node takes for READ_WRITE moves into the tray,
    /// and the keys that it or its locking node holds for READ are open there for looking. `Busy`
    /// names the lowest lent node that conflicts with it; nothing is moved then. Takes no memory.
    pub fn lend(&mut self, node: u32, tray: &mut Tray<'_>) -> Result<(), Busy>
        requires { CanLend node self.old tray.old }
        ensures busy { MatchResult result (λ _. busy self.old node ≡ None)
            (λ b. busy self.old node ≡ Some b.node) }
        ensures vault { OnOk result (self.new ≡ lending node self.old) }
        ensures tray { OnOk result (IsLentTo node tray.old tray.new) }
        ensures vault_stays { OnErr result (self.new ≡ self.old) }
        ensures tray_stays { OnErr result (tray.new ≡ tray.old) }
    {
        if let Some(m) = self.in_the_way(node) {
            return Err(Busy { node: m });
        }
        self.lend_free(node, tray);
        Ok(())
    }

    /// The lowest lent node that conflicts with a node. It looks for it only where there is one:
    /// else at the node's own locks alone.
    fn in_the_way(&self, node: u32) -> Option<u32>
        requires { node < length self.now.plan.rows }
        ensures { result ≡ busy self.now node }
    {
        if !self.lent.excludes(node) {
            return None;
        }
        lowest_in_the_way(self.plan, self, node)
    }

    /// Lends a node to a tray where no lent node conflicts with it, for those who know that without
    /// a search. Takes no memory.
    pub fn lend_free(&mut self, node: u32, tray: &mut Tray<'_>)
        requires can { CanLend node self.old tray.old }
        requires free { busy self.old node ≡ None }
        ensures vault { self.new ≡ lending node self.old }
        ensures tray { IsLentTo node tray.old tray.new }
    {
        let locks = self.plan.locks(node);
        let moves = self.moves(node);
        self.lent.hold(node);
        tray.receive(node, locks, moves, &mut self.values);
    }

    /// Takes a node back from a tray: what it takes for READ_WRITE comes home. Takes no memory.
    pub fn take_back(&mut self, node: u32, tray: &mut Tray<'_>)
        requires { CanTakeBack node self.old tray.old }
        ensures vault { self.new ≡ regaining node self.old }
        ensures tray { tray.new ≡ giving_back node tray.old }
    {
        let locks = self.plan.locks(node);
        let moves = self.moves(node);
        self.lent.release(node);
        tray.give_back(node, locks, moves, &mut self.values);
    }

    /// What moves when a node is lent and taken back. All values but that of the global key do,
    /// where it takes the second key for READ_WRITE before any other, and all behind it alike.
    fn moves(&self, node: u32) -> Moves
        requires { node < length self.now.plan.rows }
        ensures nothing { result ≡ Nothing
            → takes_write (tree_of self.now.plan) node ≡ false }
        ensures all { result ≡ AllButFirst
            → AreAllButFirst (length (keys (tree_of self.now.plan)))
            (locks (tree_of self.now.plan) node) }
    {
        if !self.plan.is_writer(node) {
            Moves::Nothing
        } else if self.is_one_group && begin_at_second(self.plan.locks(node)) {
            Moves::AllButFirst
        } else {
            Moves::Written
        }
    }
}

impl<'a> Holders for Vault<'a> {
    ghost use Rattle.std.specs.Prelude.{length};
    ghost use Rattle.iso_locks.specs.Trays.{is_lent};
    ghost use Rattle.iso_locks.specs.Vaults.{VaultView};

    ghost nodes = { λ (v : VaultView). length v.plan.rows };

    ghost held = { λ (v : VaultView). is_lent v.lent };

    fn is_held(&self, node: u32) -> bool {
        self.is_lent(node)
    }
}

/// Whether it is worth knowing, and so, that each node of a plan takes all keys but the global one
/// alike, or none of them.
fn is_one_group(plan: &Plan) -> bool
    ensures { result ≡ true → IsOneGroup (tree_of plan.now) }
{
    if plan.key_count() < MANY_KEYS {
        return false;
    }
    'keys: for key in 1..plan.key_count() {
        if plan.lead(key) != 1 {
            return false;
        }
    }
    true
}

/// All values of a plan at their start, by key number.
pub(crate) fn values(alloc: Global, plan: &Plan, world: &World) -> Result<Slots, AllocError>
    ensures fits { IfOk result (λ s. map is_some s
        ≡ replicate (length (keys (tree_of plan.now))) true) }
    ensures start { IfOk result (λ s. (i : ℕ) (h : History) → slot s i ≡ Some h
        → h.now ≡ starting_value_in world.now (key_at (tree_of plan.now) i)) }
{
    let mut values = Slots::new(alloc);
    'keys: for number in 0..plan.key_count() {
        let key = Key::new(alloc, Text::copied(alloc, plan.key(number))?)?;
        let value = world.copy(alloc, &key)?;
        let held = Held::new(alloc, value);
        values.add(Some(held))?;
    }
    Ok(values)
}
