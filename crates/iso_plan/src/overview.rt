//! The nodes of scripts by their paths, which a selection looks at before a plan is made.
ghost use Rattle.std.specs.Prelude.{◌≡◌, ◌<◌, ◌^◌, IfErr, IfOk, None, length, map};
ghost use Rattle.iso_model.specs.ScriptView.{script_of};
ghost use Rattle.iso_plan.specs.Faults.{IsFaultOf, scripts_fault};
ghost use Rattle.iso_plan.specs.Paths.{IsRooted, column};
ghost use Rattle.iso_plan.specs.RowView.{nodes_in};
ghost use Rattle.iso_plan.specs.TopClasses.{all_paths, all_top_classes, top_class};
ghost use Rattle.iso_plan.specs.Tree.{tree};

use crate::fault::PlanError;
use crate::names::check_scripts;
use crate::paths::path_texts;
use crate::row::Row;
use crate::tree::written_tree;
use iso_model::script::Script;
use iso_model::text::Text;
use std::alloc::{AllocError, Global};

/// All nodes of scripts by their numbers, which are those of the plan in which all are kept.
#[derive(Drop)]
pub struct Overview {
    /// The path of each, as `jtap plan` prints it; the root's is empty.
    pub paths: Vec<Text>,
    /// The number of the top-level class of each, which may be itself; the root's is 0.
    pub classes: Vec<u32>,
}

/// All nodes of scripts, however many they are: of the limits of a plan those alone are looked at
/// that speak of scripts. A node costs its row and its path: it gets no effective marks.
///
/// More than 64 scripts are `TooManyScripts`; two top-level classes of one team and name
/// `DoubleClass`. They are tested in this order. Out of memory may be answered at each growth, and
/// more nodes than have numbers of 32 bits count as it.
pub fn look_over(alloc: Global, scripts: &[Script]) -> Result<Overview, PlanError>
    ensures paths { IfOk result (λ o. o.paths.items
        ≡ all_paths (tree (map script_of scripts.now))) }
    ensures classes { IfOk result (λ o. o.classes.items
        ≡ all_top_classes (tree (map script_of scripts.now))) }
    ensures accepted { IfOk result (λ o. scripts_fault (map script_of scripts.now) ≡ None) }
    ensures refused { IfErr result (IsFaultOf (scripts_fault (map script_of scripts.now))) }
{
    check_scripts(alloc, scripts)?;
    let Ok(rows) = written_tree(alloc, scripts, u32::MAX) else {
        return Err(PlanError::OutOfMemory);
    };
    Ok(overview_of(alloc, &rows)?)
}

/// The same of nodes.
fn overview_of(alloc: Global, rows: &[Row]) -> Result<Overview, AllocError>
    requires tree { IsRooted (nodes_in rows.now) }
    requires fits { length rows.now < 2 ^ 32 }
    ensures paths { IfOk result (λ o. o.paths.items ≡ all_paths (nodes_in rows.now)) }
    ensures classes { IfOk result (λ o. o.classes.items ≡ all_top_classes (nodes_in rows.now)) }
{
    let classes = top_classes(alloc, rows)?;
    let paths = path_texts(alloc, rows)?;
    Ok(Overview { paths, classes })
}

/// The number of the top-level class of each node.
fn top_classes(alloc: Global, rows: &[Row]) -> Result<Vec<u32>, AllocError>
    requires tree { IsRooted (nodes_in rows.now) }
    requires fits { length rows.now < 2 ^ 32 }
    ensures { IfOk result (λ v. v.items ≡ column (top_class (nodes_in rows.now))
        (length rows.now)) }
{
    let mut classes = Vec::with_capacity(alloc, rows.len())?;
    classes.push(0)?;
    'nodes: for n in 1..rows.len() {
        let class = rows[n].parent as usize;
        let top = if class == 0 { n as u32 } else { classes[class] };
        classes.push(top)?;
    }
    Ok(classes)
}
