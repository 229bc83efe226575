//! The plan of what is kept of scripts.
ghost use Rattle.std.specs.Prelude.{◌≡◌, IfErr, IfOk, None, map};
ghost use Rattle.iso_model.specs.ScriptView.{script_of};
ghost use Rattle.iso_plan.specs.Faults.{IsFaultOf};
ghost use Rattle.iso_plan.specs.RowView.{tree_of};
ghost use Rattle.iso_run.specs.Suites.{asks_for_paths, kept_fault, kept_nodes};

use crate::inputs::Inputs;
use iso_model::script::Script;
use iso_plan::fault::PlanError;
use iso_plan::plan::{Plan, build_only};
use iso_selection::plan::build_picked;
use iso_selection::wanted::all_wanted;
use iso_settings::settings::Settings;
use std::alloc::Global;

/// The plan of what inputs keep of their scripts. Where nothing but paths is asked for, it is
/// `build_only` of these.
pub(crate) fn plan_kept(
    alloc: Global,
    scripts: &[Script],
    settings: &Settings,
    inputs: Inputs<'_>,
) -> Result<Plan, PlanError>
    ensures nodes { IfOk result (λ p. tree_of p
        ≡ kept_nodes inputs.entry (map script_of scripts.now)) }
    ensures settings { IfOk result (λ p. p.settings ≡ settings.now) }
    ensures accepted { IfOk result
        (λ p. kept_fault inputs.entry (map script_of scripts.now) ≡ None) }
    ensures refused { IfErr result
        (IsFaultOf (kept_fault inputs.entry (map script_of scripts.now))) }
{
    if asks_for_paths(inputs) {
        return build_only(alloc, scripts, settings, inputs.only);
    }
    match all_wanted(alloc, inputs.only, inputs.patterns, inputs.listed)? {
        Some(wanted) => build_picked(
            alloc,
            scripts,
            settings,
            Some(wanted.as_slice()),
            inputs.shard,
        ),
        None => build_picked(alloc, scripts, settings, None, inputs.shard),
    }
}

/// Whether inputs ask for paths alone.
fn asks_for_paths(inputs: Inputs<'_>) -> bool
    ensures { result ≡ asks_for_paths inputs.entry }
{
    inputs.patterns.is_empty() && inputs.listed.is_none() && inputs.shard.is_none()
}
