//! The sites of a plan's nodes.
ghost use Rattle.std.specs.Prelude.{IfErr, IfOk, map};
ghost use Rattle.iso_model.specs.ScriptView.{script_of};
ghost use Rattle.iso_places.specs.Located.{AreSites, IsRefusal};
ghost use Rattle.iso_places.specs.Sites.{all_sites, places_in};
ghost use Rattle.iso_plan.specs.RowView.{tree_of};
ghost use Rattle.iso_plan.specs.Tree.{tree};

use crate::fault::LocateError;
use crate::paths::plan_paths;
use crate::site::Sites;
use crate::table::{all_sites, sites_by_path, sites_of};
use iso_model::script::Script;
use iso_plan::laws;
use iso_plan::overview::look_over;
use iso_plan::plan::Plan;
use iso_script::place::NodePlace;
use std::alloc::Global;

/// The sites of the nodes of a plan of scripts, whichever of their nodes it has: each stands where
/// the first node of all scripts stands that has its path. The places are those of each script's
/// nodes, in written order.
///
/// `NoPlace` is answered where a node of the plan has the path of none of them, or where no plan is
/// of these scripts. Takes time as the paths of all scripts' nodes are long, and a look-up for each
/// node of the plan.
pub fn locate(
    alloc: Global,
    scripts: &[Script],
    places: &[Vec<NodePlace>],
    plan: &Plan,
) -> Result<Sites, LocateError>
    ensures found { IfOk result (AreSites (tree (map script_of scripts.now))
        (all_sites (places_in places.now)) (tree_of plan.now)) }
    ensures refused { IfErr result (IsRefusal (map script_of scripts.now)
        (all_sites (places_in places.now)) (tree_of plan.now)) }
{
    laws::nodes_are_a_tree(plan);
    let nodes = look_over(alloc, scripts)?;
    let sites = all_sites(alloc, places)?;
    let table = sites_by_path(alloc, &nodes.paths[1..], &sites)?;
    let paths = plan_paths(alloc, plan)?;
    sites_of(alloc, &table, &paths[1..])
}
