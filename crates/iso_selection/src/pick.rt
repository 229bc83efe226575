//! What is kept of scripts.
ghost use Rattle.std.specs.Prelude.{◌≡◌, [], IfErr, IfOk, None, Some, false, length, map, slice_index_or};
ghost use Rattle.iso_model.specs.ScriptView.{script_of};
ghost use Rattle.iso_plan.specs.Faults.{IsFaultOf};
ghost use Rattle.iso_plan.specs.Tree.{tree};
ghost use Rattle.iso_plan.specs.KeptNodes.{those_below};
ghost use Rattle.iso_selection.specs.Picks.{HasPaths, paths_of, pick_fault, picked};
ghost use Rattle.iso_selection.specs.Wishes.{wishes_of};

use crate::named::named;
use crate::shard::Shard;
use crate::turns::in_shard;
use crate::wanted::Wanted;
use iso_model::script::Script;
use iso_model::text::Text;
use iso_plan::fault::PlanError;
use iso_plan::overview::look_over;
use std::alloc::{AllocError, Global};

/// What is kept of scripts.
#[derive(Drop)]
pub enum Picked {
    /// All nodes.
    All,
    /// No node but the root.
    Nothing,
    /// What these paths keep. There is one at least, and each is a node's.
    These(Vec<Text>),
}

/// What is kept of scripts of what is asked for: the nodes that it names, of all nodes of all
/// scripts, and of their top-level classes those of the shard. Where nothing is asked for, all
/// top-level classes are named. The paths are in the nodes' order, each node's once.
///
/// More than 64 scripts are `TooManyScripts`; two top-level classes of one team and name
/// `DoubleClass`; a path or a pattern that names no node, whichever shard is asked for,
/// `NotSelected`, of the first such in the order in which they are asked for. They are tested in
/// this order. Where neither a path or a pattern nor a shard is asked for, the scripts aren't
/// looked at. Out of memory may be answered at each growth.
pub fn pick(
    alloc: Global,
    scripts: &[Script],
    wanted: Option<&[Wanted<'_>]>,
    shard: Option<Shard>,
) -> Result<Picked, PlanError>
    ensures picked { IfOk result (λ p. paths_of p
        ≡ picked (tree (map script_of scripts.now)) (wishes_of wanted.entry) shard) }
    ensures some { IfOk result HasPaths }
    ensures accepted { IfOk result
        (λ p. pick_fault (map script_of scripts.now) (wishes_of wanted.entry) shard ≡ None) }
    ensures refused { IfErr result
        (IsFaultOf (pick_fault (map script_of scripts.now) (wishes_of wanted.entry) shard)) }
{
    if wanted.is_none() && shard.is_none() {
        return Ok(Picked::All);
    }
    let nodes = look_over(alloc, scripts)?;
    let named = named(alloc, &nodes, wanted)?;
    let kept = in_shard(alloc, &nodes.classes, named, shard)?;
    Ok(these(kept_paths(alloc, &nodes.paths, &kept)?))
}

/// The paths of the nodes that are kept, in the nodes' order.
fn kept_paths(alloc: Global, paths: &[Text], kept: &[bool]) -> Result<Vec<Text>, AllocError>
    requires { length kept.now ≡ length paths.now }
    ensures { IfOk result (λ v. v.items ≡ map (λ n. slice_index_or paths.now n [])
        (those_below (λ n. slice_index_or kept.now n false) (length paths.now))) }
{
    let mut left = Vec::new(alloc);
    'nodes: for n in 0..paths.len() {
        if kept[n] {
            left.push(paths[n].copy(alloc)?)?;
        }
    }
    Ok(left)
}

/// An answer with these paths, if there are any.
fn these(paths: Vec<Text>) -> Picked
    ensures paths { paths_of result ≡ Some paths.items }
    ensures some { HasPaths result }
{
    if paths.is_empty() {
        return Picked::Nothing;
    }
    Picked::These(paths)
}
