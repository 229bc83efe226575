//! Laws of every plan: what the proofs of its runs rest on.
ghost use Rattle.std.specs.Prelude.{◌≡◌, ◌<◌, ◌≤◌, ◌||◌, ◌++◌, ◌∷◌, [], ℕ, List, None, false, length, map, slice_index_or, true};
ghost use Rattle.iso_model.specs.ResourceKeys.{global_key};
ghost use Rattle.iso_model.specs.NameSets.{is_among};
ghost use Rattle.iso_model.specs.Rights.{is_readable, is_writable, rights_of};
ghost use Rattle.iso_model.specs.ScriptView.{script_of};
ghost use Rattle.iso_model.specs.Targets.{marks_for};
ghost use Rattle.iso_model.specs.declared.heads.Mark.{Mark};
ghost use Rattle.iso_model.specs.declared.heads.Target.{Target};
ghost use Rattle.iso_model.specs.declared.limits.TheConstants.{NODES};
ghost use Rattle.iso_model.specs.declared.script.Mode.TheVariants.{SameThread};
ghost use Rattle.iso_plan.specs.Children.{IsChild, IsListed};
ghost use Rattle.iso_plan.specs.Covers.{IsCovered};
ghost use Rattle.iso_plan.specs.KeyTable.{firsts, keys, mark_keys, marked_keys};
ghost use Rattle.iso_plan.specs.Locks.{conflict, is_locking, locks, taken};
ghost use Rattle.iso_plan.specs.Faults.{plan_fault};
ghost use Rattle.iso_plan.specs.Merged.{all_merged, merged, most_marks};
ghost use Rattle.iso_plan.specs.Modes.{mode};
ghost use Rattle.iso_plan.specs.NodeChains.{chain_classes, class_heads, depth, node_rights};
ghost use Rattle.iso_plan.specs.Paths.{IsTree, children, is_test, is_top, is_under, parent, path, row_at};
ghost use Rattle.iso_plan.specs.Preorder.{IsPreorder};
ghost use Rattle.iso_plan.specs.RowView.{tree_of};
ghost use Rattle.iso_plan.specs.SameNodes.{IsSameNode};
ghost use Rattle.iso_plan.specs.KeptNodes.{is_kept, number_among, plan_tree, selection, texts_of};
ghost use Rattle.iso_plan.specs.Tree.{Row};
ghost use Rattle.iso_plan.specs.WrittenMarks.{AreWritten, tree_with};

use crate::plan::Plan;
use iso_model::heads::Mark;
use iso_model::script::Script;

/// The nodes are a tree: node 0 is the root, and each other one is a class or a test, a child of
/// the root or of a class with a smaller number. What the laws below say of plans is proved of all
/// such trees.
pub fn nodes_are_a_tree(plan: &Plan)
    ensures { IsTree (tree_of plan.now) }
{
    plan.hold_a_tree();
}

/// There are no more nodes than a plan may have.
pub fn nodes_are_few(plan: &Plan)
    ensures { length plan.now.rows ≤ NODES }
{
    plan.hold_few_nodes();
}

/// The nodes stand in preorder: a node's descendants follow it without a gap.
pub fn nodes_stand_in_preorder(plan: &Plan)
    ensures { IsPreorder (tree_of plan.now) }
{
    plan.hold_an_order();
}

/// The children of a node are those nodes that have it as their parent.
pub fn children_have_their_parent(plan: &Plan)
    ensures children { (m i : ℕ) → i < length (children (tree_of plan.now) m)
        → IsChild (tree_of plan.now) m (length (tree_of plan.now))
        (slice_index_or (children (tree_of plan.now) m) i 0) }
    ensures listed { (n : ℕ) → 0 < n → n < length (tree_of plan.now)
        → IsListed (children (tree_of plan.now) (parent (tree_of plan.now) n)) n }
{}

/// The keys are the first of each of the global key and all keys that are marked, in preorder.
pub fn keys_are_the_first_of_each(plan: &Plan)
    ensures { keys (tree_of plan.now) ≡ firsts (global_key ∷ marked_keys (tree_of plan.now)) }
{}

/// A node's parent has a smaller number, so that it comes before the node.
pub fn parents_come_first(plan: &Plan)
    ensures { (n : ℕ) → 0 < n → parent (tree_of plan.now) n < n }
{
    plan.hold_a_tree();
}

/// No node is a child of a test.
pub fn tests_hold_nothing(plan: &Plan)
    ensures { (n : ℕ) → 0 < n
        → is_test (row_at (tree_of plan.now) (parent (tree_of plan.now) n)).kind ≡ false }
{
    plan.hold_a_tree();
}

/// A node's path is the node, and then its parent's.
pub fn paths_lead_up(plan: &Plan)
    ensures root { path (tree_of plan.now) 0 ≡ [] }
    ensures step { (n : ℕ) → 0 < n → path (tree_of plan.now) n
        ≡ n ∷ path (tree_of plan.now) (parent (tree_of plan.now) n) }
{
    plan.hold_a_tree();
}

/// A class chain is the node's own head, if it is a class, on its parent's chain.
pub fn chains_grow_down(plan: &Plan)
    ensures { (n : ℕ) → 0 < n → chain_classes (tree_of plan.now) n
        ≡ class_heads (row_at (tree_of plan.now) n).kind
        ++ chain_classes (tree_of plan.now) (parent (tree_of plan.now) n) }
{
    plan.hold_a_tree();
}

/// A plan is as deep as its longest class chain: no node's has more classes.
pub fn chains_are_within_the_depth(plan: &Plan)
    ensures { (n : ℕ) → length (chain_classes (tree_of plan.now) n) ≤ depth (tree_of plan.now) }
{
    plan.hold_a_tree();
}

/// The root has no rights, and what a class's chain lets do, the chain of each of its children lets
/// do.
pub fn rights_grow_down(plan: &Plan)
    ensures root { (k : List ℕ) → is_readable (node_rights (tree_of plan.now) 0 k) ≡ false }
    ensures look { (n : ℕ) (k : List ℕ) → 0 < n
        → is_readable (node_rights (tree_of plan.now) (parent (tree_of plan.now) n) k) ≡ true
        → is_readable (node_rights (tree_of plan.now) n k) ≡ true }
    ensures change { (n : ℕ) (k : List ℕ) → 0 < n
        → is_writable (node_rights (tree_of plan.now) (parent (tree_of plan.now) n) k) ≡ true
        → is_writable (node_rights (tree_of plan.now) n k) ≡ true }
{
    plan.hold_a_tree();
}

/// A key that a node may look at is taken by its locking node, the node or an ancestor of it, and
/// for READ_WRITE where the node may change it.
pub fn rights_are_covered_by_locks(plan: &Plan)
    ensures { (n : ℕ) (k : List ℕ) → 0 < n → n < length (tree_of plan.now)
        → is_readable (node_rights (tree_of plan.now) n k) ≡ true
        → IsCovered (tree_of plan.now) n k }
{
    plan.hold_a_tree();
}

/// The descendants of a node that takes a key for READ_WRITE are on the same thread.
pub fn descendants_of_writers_are_forced(plan: &Plan)
    ensures { (m n : ℕ) (k : List ℕ) → is_under (tree_of plan.now) m
        (parent (tree_of plan.now) n) ≡ true
        → is_writable (taken (tree_of plan.now) m k) ≡ true
        → mode (tree_of plan.now) plan.now.settings n ≡ SameThread }
{
    plan.hold_a_tree();
}

/// A node takes keys only where it is a locking node or a top-level class.
pub fn locking_nodes_alone_take_keys(plan: &Plan)
    ensures { (n : ℕ) (k : List ℕ) → is_readable (taken (tree_of plan.now) n k) ≡ true
        → (is_locking (tree_of plan.now) n || is_top (tree_of plan.now) n) ≡ true }
{}

/// Of two nodes that conflict, one is a descendant of the other only where they are the same.
pub fn conflicting_nodes_stand_apart(plan: &Plan)
    ensures { (m n : ℕ) → conflict (tree_of plan.now) m n ≡ true → is_under (tree_of plan.now) m n
        ≡ true → m ≡ n }
{
    plan.hold_a_tree();
}

/// A node in the way of one that is no top-level class has gathered the locks of all its own
/// descendants: nothing is in the way of these.
pub fn holders_gather_what_stands_in_them(plan: &Plan)
    ensures { (m n d j : ℕ) → conflict (tree_of plan.now) m n ≡ true
        → is_top (tree_of plan.now) n ≡ false
        → is_under (tree_of plan.now) m d ≡ true → (m ≡ d → ⊥)
        → conflict (tree_of plan.now) j d ≡ false }
{
    plan.hold_a_tree();
}

/// A node of a plan that these paths keep has the path, the class chain and the rights that it has
/// in the plan.
pub fn selected_nodes_keep_their_chains(plan: &Plan)
    ensures { (only : List (List ℕ)) (m : ℕ) → m < length (tree_of plan.now)
        → is_kept (tree_of plan.now) only m ≡ true
        → IsSameNode (tree_of plan.now) m (selection (tree_of plan.now) only)
        (number_among (is_kept (tree_of plan.now) only) m) }
{
    plan.hold_a_tree();
}

/// Which nodes are kept depends on which paths are given, and neither on their order nor on how
/// often each is.
pub fn paths_are_a_set()
    ensures { (tree : List Row) (only others : List (List ℕ))
        → ((p : List ℕ) → is_among only p ≡ is_among others p)
        → selection tree only ≡ selection tree others }
{}

/// In scripts that make a plan no node has as many marks as are kept of one: so the bound on them
/// changes no plan.
pub fn no_mark_is_left_out(scripts: &[Script], only: &[&str])
    ensures { plan_fault (map script_of scripts.now) (texts_of only.now) ≡ None
        → (n : ℕ) → length (row_at (plan_tree (map script_of scripts.now) (texts_of only.now))
        n).written < most_marks }
{}

/// Marks of which fewer are kept than may be are all kept. Those that are kept of more have keys
/// that are written.
pub fn fewer_marks_are_all_kept(marks: &[Mark])
    ensures all { length (merged marks.now) < most_marks → merged marks.now ≡ all_merged marks.now }
    ensures written { (k : List ℕ) → is_among (mark_keys (merged marks.now)) k ≡ true
        → is_among (mark_keys marks.now) k ≡ true }
{}

/// Merged marks give each key the access that they give it as they are written, to each target by
/// itself. They name the same keys, the first of each in the same order.
pub fn merged_marks_declare_the_same(marks: &[Mark])
    ensures rights { (t : Target) (k : List ℕ)
        → rights_of (marks_for t (all_merged marks.now)) k ≡ rights_of (marks_for t marks.now) k }
    ensures keys { firsts (mark_keys (all_merged marks.now)) ≡ firsts (mark_keys marks.now) }
{}

/// The keys of a plan with their numbers, and the locks, modes and rights of its nodes are those of
/// the tree by the marks as they are written: of any marks of which those of its rows are merged.
pub fn written_marks_make_the_same_plan(plan: &Plan)
    ensures keys { (marks : ℕ → List Mark) → AreWritten (tree_of plan.now) marks
        → keys (tree_with (tree_of plan.now) marks) ≡ keys (tree_of plan.now) }
    ensures locks { (marks : ℕ → List Mark) → AreWritten (tree_of plan.now) marks
        → (n : ℕ) → locks (tree_with (tree_of plan.now) marks) n ≡ locks (tree_of plan.now) n }
    ensures modes { (marks : ℕ → List Mark) → AreWritten (tree_of plan.now) marks → (n : ℕ)
        → mode (tree_with (tree_of plan.now) marks) plan.now.settings n
        ≡ mode (tree_of plan.now) plan.now.settings n }
    ensures rights { (marks : ℕ → List Mark) → AreWritten (tree_of plan.now) marks
        → (n : ℕ) (k : List ℕ)
        → node_rights (tree_with (tree_of plan.now) marks) n k
        ≡ node_rights (tree_of plan.now) n k }
{
    plan.hold_a_tree();
    plan.hold_few_keys();
}
