//! The nodes of a plan: those of scripts, and which of them are kept.
ghost use Rattle.std.specs.Prelude.{◌≡◌, ◌<◌, ◌≤◌, IfErr, IfOk, None, length, map};
ghost use Rattle.iso_model.specs.ScriptView.{script_of};
ghost use Rattle.iso_model.specs.declared.limits.TheConstants.{NODES};
ghost use Rattle.iso_plan.specs.Faults.{IsFaultOf, IsFull, nodes_fault};
ghost use Rattle.iso_plan.specs.RowView.{nodes_in};
ghost use Rattle.iso_plan.specs.KeptNodes.{plan_tree, texts_of};
ghost use Rattle.iso_plan.specs.Tree.{tree};

use crate::children_marks::make_effective;
use crate::fault::{PlanError, PlanFault};
use crate::kept_nodes::selection;
use crate::row::Row;
use crate::tree::written_tree;
use iso_model::limits::NODES;
use iso_model::script::Script;
use std::alloc::Global;

/// The nodes of scripts that these paths keep. More than 4,096 are `TooManyNodes`, after a path
/// that names no node. Where some may be left out, more nodes than have numbers of 32 bits count as
/// out of memory, and those that aren't kept get no effective marks: they cost their rows and their
/// paths alone.
pub(crate) fn kept_rows(
    alloc: Global,
    scripts: &[Script],
    only: &[&str],
) -> Result<Vec<Row>, PlanError>
    ensures tree { IfOk result (λ v. nodes_in v.items
        ≡ plan_tree (map script_of scripts.now) (texts_of only.now)) }
    ensures fits { IfOk result (λ v. length v.items ≤ NODES) }
    ensures accepted { IfOk result
        (λ v. nodes_fault (map script_of scripts.now) (texts_of only.now) ≡ None) }
    ensures refused { IfErr result
        (IsFaultOf (nodes_fault (map script_of scripts.now) (texts_of only.now))) }
{
    if only.is_empty() {
        return all_rows(alloc, scripts, NODES);
    }
    let Ok(rows) = written_tree(alloc, scripts, u32::MAX) else {
        return Err(PlanError::OutOfMemory);
    };
    let mut kept = selection(alloc, rows, only)?;
    if kept.len() > NODES as usize {
        return Err(PlanError::Fault(PlanFault::TooManyNodes));
    }
    make_effective(alloc, &mut kept)?;
    Ok(kept)
}

/// The nodes of scripts, with their effective marks. More than `most` are `TooManyNodes`.
pub(crate) fn all_rows(alloc: Global, scripts: &[Script], most: u32) -> Result<Vec<Row>, PlanError>
    requires { 0 < most }
    ensures tree { IfOk result (λ v. nodes_in v.items ≡ tree (map script_of scripts.now)) }
    ensures fits { IfOk result (λ v. length v.items ≤ most) }
    ensures full { IfErr result (IsFull most (length (tree (map script_of scripts.now)))) }
{
    let mut rows = written_tree(alloc, scripts, most)?;
    make_effective(alloc, &mut rows)?;
    Ok(rows)
}
