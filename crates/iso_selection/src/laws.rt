//! Laws of what is picked of scripts.
ghost use Rattle.std.specs.Prelude.{◌≡◌, ◌<◌, ◌≤◌, ◌&&◌, ◌==◌, [], ℕ, List, Option, None, Some, length, map, true};
ghost use Rattle.iso_model.specs.ScriptView.{script_of};
ghost use Rattle.iso_model.specs.Scripts as S;
ghost use Rattle.iso_plan.specs.RowView.{tree_of};
ghost use Rattle.iso_plan.specs.SameNodes.{IsSameNode};
ghost use Rattle.iso_plan.specs.KeptNodes.{is_kept_by, is_named, number_among};
ghost use Rattle.iso_plan.specs.TopClasses.{top_class};
ghost use Rattle.iso_plan.specs.Tree.{tree};
ghost use Rattle.iso_selection.specs.PickedPlans.{picked_tree};
ghost use Rattle.iso_selection.specs.Picks.{HaveOwnPaths, is_picked, kept_tree, picked_paths};
ghost use Rattle.iso_selection.specs.Results.{KeepsResults};
ghost use Rattle.iso_selection.specs.Shards.{shard_of};
ghost use Rattle.iso_selection.specs.Wishes.{Wish, is_named_by};
ghost use Rattle.iso_selection.specs.declared.shard.Shard.{Shard};

use iso_model::script::Script;
use iso_plan::plan::Plan;
use iso_suites::laws;

/// The picked paths name just the nodes that are asked for; with a shard, just the picked ones
/// where no two nodes have one path.
pub fn picked_paths_name_the_picked_nodes(scripts: &[Script])
    ensures whole { let nodes = tree (map script_of scripts.now) in
        (wishes : List Wish) (n : ℕ) → n < length nodes
        → is_named nodes (picked_paths nodes (Some wishes) None) n
        ≡ is_named_by nodes (Some wishes) n }
    ensures shard { let nodes = tree (map script_of scripts.now) in
        HaveOwnPaths nodes → (wishes : Option (List Wish)) (shard : Option Shard) (n : ℕ)
        → n < length nodes
        → is_named nodes (picked_paths nodes wishes shard) n
        ≡ is_picked nodes wishes shard n }
{}

/// A top-level class goes to just one of the shards from 1 to as many as there are.
pub fn each_class_goes_to_one_shard(scripts: &[Script])
    ensures { let nodes = tree (map script_of scripts.now) in
        (wishes : Option (List Wish)) (count class : ℕ) → 1 ≤ count
        → (1 ≤ shard_of nodes (is_named_by nodes wishes) count class)
        × (shard_of nodes (is_named_by nodes wishes) count class ≤ count) }
{}

/// A node that is kept without a shard is kept by the shard that its top-level class goes to, and
/// by no other; and no shard keeps another node. No two nodes may have one path for that.
pub fn each_node_is_kept_by_one_shard(scripts: &[Script])
    ensures { let nodes = tree (map script_of scripts.now) in
        HaveOwnPaths nodes → (wishes : Option (List Wish)) (shard : Shard) (m : ℕ) → 0 < m
        → is_kept_by nodes (picked_paths nodes wishes (Some shard)) m
        ≡ (is_kept_by nodes (picked_paths nodes wishes None) m
        && (shard_of nodes (is_named_by nodes wishes) shard.count
        (top_class nodes m) == shard.index)) }
{}

/// A node that is kept has the path, the class chain and the rights that it has where all nodes are
/// kept, in each shard.
pub fn picked_nodes_keep_their_chains(scripts: &[Script])
    ensures { let nodes = tree (map script_of scripts.now) in
        (wishes : Option (List Wish)) (shard : Option Shard) (m : ℕ) → m < length nodes
        → is_kept_by nodes (picked_paths nodes wishes shard) m ≡ true
        → IsSameNode nodes m
        (kept_tree nodes (picked_paths nodes wishes shard))
        (number_among (is_kept_by nodes (picked_paths nodes wishes shard)) m) }
{}

/// The isolation theorem of shards: each test and class that a shard keeps has, in every run of the
/// shard's plan, the verdict and output that it has in every run of all scripts. The runs may have
/// different settings and numbers of workers.
pub fn shards_have_the_results_of_the_whole_run(whole: &Plan, part: &Plan)
    ensures { (scripts : List S.Script) (wishes : Option (List Wish)) (shard : Shard)
        → tree_of whole.now ≡ tree scripts → tree_of part.now
        ≡ picked_tree scripts wishes (Some shard)
        → KeepsResults whole.now part.now (picked_paths (tree scripts) wishes (Some shard)) }
{
    laws::selected_nodes_have_the_results_of_the_whole_run(whole, part);
}

/// Where no path is picked the root alone is kept, and that is the tree of no scripts.
pub fn no_path_keeps_the_root_alone(scripts: &[Script])
    ensures { let nodes = tree (map script_of scripts.now) in
        kept_tree nodes [] ≡ tree [] }
{}
