//! Laws of trays: what lets one go back to a mark, and what lets a node be taken back. Each
//! function does nothing: its contract is the law, and is proved.
ghost use Rattle.std.specs.Prelude.{◌≡◌, ◌≢◌, ◌<◌, ℕ, List, false, is_some, length, true};
ghost use Rattle.iso_lifecycle.specs.Subjects.{started};
ghost use Rattle.iso_locks.specs.Clashes.{clash};
ghost use Rattle.iso_locks.specs.Flats.{IsFlat, flat, with_saved};
ghost use Rattle.iso_locks.specs.Owners.{IsOwned};
ghost use Rattle.iso_locks.specs.Slots.{slot};
ghost use Rattle.iso_locks.specs.Trays.{CanUndo, GoesOn, IsOnward, SavepointView, TrayView, content, has_value, holds_read, is_lent, marked, undone, with_change};
ghost use Rattle.iso_locks.specs.Vaults.{CanTakeBack, IsLentTo, VaultView, giving_back, lending, regaining};
ghost use Rattle.iso_model.specs.Rights.{is_writable};
ghost use Rattle.iso_model.specs.declared.resource.Change.{Change};
ghost use Rattle.iso_plan.specs.Locks.{taken};
ghost use Rattle.iso_plan.specs.RowView.{tree_of};

use crate::tray::Tray;
use iso_plan::laws;

/// Further changes let every mark be gone back to that could be before, and the one that was made
/// then.
pub fn further_changes_keep_marks()
    ensures own { (t u : TrayView) (n : ℕ) → GoesOn t u → CanUndo (marked t n) u }
    ensures others { (t u : TrayView) (mark : SavepointView) → GoesOn t u → CanUndo mark t
        → CanUndo mark u }
{}

/// A tray goes on by nothing, by changes of its values, and step by step.
pub fn trays_go_on_by_changes()
    ensures still { (t : TrayView) → GoesOn t t }
    ensures further { (t u v : TrayView) → GoesOn t u → GoesOn u v → GoesOn t v }
    ensures change { (t : TrayView) (i : ℕ) (change : Change) → GoesOn t (with_change change i t) }
{}

/// A node may be taken back as it was lent.
pub fn lent_nodes_may_be_taken_back()
    ensures { (n : ℕ) (v : VaultView) (t u : TrayView) → IsLentTo n t u → n < length v.plan.rows
        → u.plan ≡ v.plan → u.world ≡ v.world
        → is_lent v.lent n ≡ true → CanTakeBack n v u }
{}

/// A node may still be taken back when another one was lent to its tray since, or taken back from
/// it.
pub fn other_nodes_may_still_be_taken_back()
    ensures lent { (m n : ℕ) (v : VaultView) (t u : TrayView) → CanTakeBack m v t → IsLentTo n t u
        → CanTakeBack m (lending n v) u }
    ensures home { (m n : ℕ) (v : VaultView) (t : TrayView) → m ≢ n → clash (tree_of t.plan) m n
        ≡ false → CanTakeBack m v t
        → CanTakeBack m (regaining n v) (giving_back n t) }
{}

/// A mark can still be gone back to when a node was lent to its tray since.
pub fn lending_keeps_marks()
    ensures { (n : ℕ) (t u : TrayView) (mark : SavepointView) → t.flat ≡ false → CanUndo mark t
        → IsLentTo n t u → CanUndo mark u }
{}

/// A node that is lent to a tray finds there each key that it or its locking node takes for READ as
/// it starts, to look at, and the value of each key that it takes for READ_WRITE, to change. A flat
/// map has values of its own.
pub fn lent_nodes_find_their_values(tray: &Tray<'_>)
    ensures read { tray.now.flat ≡ false → (n : ℕ) (k : List ℕ) → is_lent tray.now.lent n ≡ true
        → holds_read (tree_of tray.now.plan) k n ≡ true
        → content tray.now k ≡ started tray.now.world k }
    ensures written { (n : ℕ) (k : List ℕ) → is_lent tray.now.lent n ≡ true
        → is_writable (taken (tree_of tray.now.plan) n k) ≡ true
        → has_value tray.now k ≡ true }
{
    laws::nodes_are_a_tree(tray.plan());
    tray.keep_owners();
}

/// Each value that a tray has is one that a node which is lent to it takes for READ_WRITE. A flat
/// map has values of its own.
pub fn values_are_of_lent_nodes(tray: &Tray<'_>)
    ensures { tray.now.flat ≡ false → (i : ℕ) → is_some (slot tray.now.values i) ≡ true
        → IsOwned (tree_of tray.now.plan) tray.now.lent i }
{
    tray.keep_owners();
}

/// A flat map that goes back to a mark has the values that the node may change as they stood at the
/// mark, and all others as they are.
pub fn flat_maps_go_back_to_marks()
    ensures { (t u : TrayView) (n : ℕ) → IsFlat t → IsFlat u → u.plan ≡ t.plan → u.world ≡ t.world
        → flat (undone (marked t n) u) ≡ with_saved t n (flat t) (flat u) }
{}

/// A flat map stays flat by changes, and when it goes back to a mark.
pub fn flat_maps_stay_flat()
    ensures changes { (t u : TrayView) → IsOnward t u → IsFlat t → IsFlat u }
    ensures marks { (t : TrayView) (mark : SavepointView) → IsFlat t → IsFlat (undone mark t) }
{}
