//! The plan of what is picked of scripts.
ghost use Rattle.std.specs.Prelude.{◌≡◌, IfErr, IfOk, None, map};
ghost use Rattle.iso_model.specs.ScriptView.{script_of};
ghost use Rattle.iso_plan.specs.Faults.{IsFaultOf, plan_fault};
ghost use Rattle.iso_plan.specs.RowView.{tree_of};
ghost use Rattle.iso_plan.specs.KeptNodes.{plan_tree, texts_of};
ghost use Rattle.iso_selection.specs.PickedPlans.{picked_plan_fault, picked_tree};
ghost use Rattle.iso_selection.specs.Wishes.{wishes_of};

use crate::pick::{Picked, pick};
use crate::shard::Shard;
use crate::wanted::Wanted;
use iso_model::script::Script;
use iso_model::text::Text;
use iso_plan::fault::PlanError;
use iso_plan::plan::{Plan, build, build_only};
use iso_settings::settings::Settings;
use std::alloc::{AllocError, Global};

/// The plan of what is kept of scripts, under settings: of what is asked for, and of its top-level
/// classes those of the shard. Where neither a path or a pattern nor a shard is asked for, all are
/// kept; where nothing is left, the root alone.
///
/// More than 64 scripts are `TooManyScripts`; two top-level classes of one team and name
/// `DoubleClass`; a path or a pattern that names no node, whichever shard is asked for,
/// `NotSelected`, of the first such in the order in which they are asked for; more than 4,096 kept
/// nodes, the root among them, `TooManyNodes`; more than 255 different keys that are declared on
/// them `TooManyKeys`. They are tested in this order. Out of memory may be answered at each growth.
pub fn build_picked(
    alloc: Global,
    scripts: &[Script],
    settings: &Settings,
    wanted: Option<&[Wanted<'_>]>,
    shard: Option<Shard>,
) -> Result<Plan, PlanError>
    ensures tree { IfOk result (λ p. tree_of p
        ≡ picked_tree (map script_of scripts.now) (wishes_of wanted.entry) shard) }
    ensures settings { IfOk result (λ p. p.settings ≡ settings.now) }
    ensures accepted { IfOk result (λ p. picked_plan_fault (map script_of scripts.now)
        (wishes_of wanted.entry) shard ≡ None) }
    ensures refused { IfErr result
        (IsFaultOf (picked_plan_fault (map script_of scripts.now) (wishes_of wanted.entry) shard)) }
{
    match pick(alloc, scripts, wanted, shard)? {
        Picked::All => build(alloc, scripts, settings),
        Picked::Nothing => build(alloc, &[], settings),
        Picked::These(paths) => build_these(alloc, scripts, settings, &paths),
    }
}

/// The plan of what these paths keep.
fn build_these(
    alloc: Global,
    scripts: &[Script],
    settings: &Settings,
    paths: &[Text],
) -> Result<Plan, PlanError>
    ensures tree { IfOk result (λ p. tree_of p ≡ plan_tree (map script_of scripts.now) paths.now) }
    ensures settings { IfOk result (λ p. p.settings ≡ settings.now) }
    ensures accepted { IfOk result (λ p. plan_fault (map script_of scripts.now) paths.now ≡ None) }
    ensures refused { IfErr result (IsFaultOf (plan_fault (map script_of scripts.now) paths.now)) }
{
    let only = strs(alloc, paths)?;
    build_only(alloc, scripts, settings, &only)
}

/// The texts, lent.
fn strs<'a>(alloc: Global, texts: &'a [Text]) -> Result<Vec<&'a str>, AllocError>
    ensures { IfOk result (λ v. texts_of v.items ≡ texts.now) }
{
    let mut strs = Vec::with_capacity(alloc, texts.len())?;
    'texts: for text in texts {
        strs.push(text.as_str())?;
    }
    Ok(strs)
}
