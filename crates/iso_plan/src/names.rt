//! What scripts have to keep by themselves: there are no more than `SCRIPTS`, and the names of
//! top-level classes differ.
ghost use Rattle.std.specs.Prelude.{◌≡◌, ◌++◌, IfErr, IfOk, None, OnOk, map};
ghost use Rattle.iso_model.specs.ScriptView.{class_of, script_of};
ghost use Rattle.iso_plan.specs.Faults.{IsFaultOf, has_double, scripts_fault, team_names, top_names};

use crate::fault::{PlanError, PlanFault};
use crate::tree::in_team;
use iso_model::distinct::claim;
use iso_model::limits::SCRIPTS;
use iso_model::script::{Class, Script};
use iso_model::text::Text;
use std::alloc::{AllocError, Global};
use std::collections::BTreeSet;

/// Refuses too many scripts, and two top-level classes of one team and name.
pub(crate) fn check_scripts(alloc: Global, scripts: &[Script]) -> Result<(), PlanError>
    ensures ok { OnOk result (scripts_fault (map script_of scripts.now) ≡ None) }
    ensures err { IfErr result (IsFaultOf (scripts_fault (map script_of scripts.now))) }
{
    if scripts.len() > SCRIPTS as usize {
        return Err(PlanError::Fault(PlanFault::TooManyScripts));
    }
    if has_double_class(alloc, scripts)? {
        return Err(PlanError::Fault(PlanFault::DoubleClass));
    }
    Ok(())
}

/// Whether two top-level classes have one team and name.
fn has_double_class(alloc: Global, scripts: &[Script]) -> Result<bool, AllocError>
    ensures { IfOk result (λ b. b ≡ has_double (top_names (map script_of scripts.now))) }
{
    let names = top_names(alloc, scripts)?;
    has_double(alloc, &names)
}

/// The names of the top-level classes of scripts, each after its team's.
fn top_names(alloc: Global, scripts: &[Script]) -> Result<Vec<Text>, AllocError>
    ensures { IfOk result (λ v. v.items ≡ top_names (map script_of scripts.now)) }
{
    let mut names = Vec::new(alloc);
    'scripts: for script in scripts {
        add_names(alloc, &mut names, &script.team, &script.classes)?;
    }
    Ok(names)
}

/// Adds the names of a team's classes.
fn add_names(
    alloc: Global,
    names: &mut Vec<Text>,
    team: &Text,
    classes: &[Class],
) -> Result<(), AllocError>
    ensures { OnOk result (names.new.items ≡ names.old.items
        ++ team_names team.now (map class_of classes.now)) }
{
    'classes: for class in classes {
        names.push(in_team(alloc, team, &class.name)?)?;
    }
    Ok(())
}

/// Whether one of the names stands twice.
fn has_double(alloc: Global, names: &[Text]) -> Result<bool, AllocError>
    ensures { IfOk result (λ b. b ≡ has_double names.now) }
{
    let mut seen = BTreeSet::new(alloc);
    'names: for name in names {
        if !claim(&mut seen, name.as_str())? {
            return Ok(true);
        }
    }
    Ok(false)
}
