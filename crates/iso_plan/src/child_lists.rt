//! The children of each node.
ghost use Rattle.std.specs.Prelude.{◌≡◌, ◌≤◌, [], IfOk, length, map};
ghost use Rattle.iso_model.specs.declared.limits.TheConstants.{NODES};
ghost use Rattle.iso_plan.specs.Paths.{IsTree, children, column};
ghost use Rattle.iso_plan.specs.RowView.{nodes_in};

use crate::row::Row;
use std::alloc::{AllocError, Global};

/// The numbers of the children of each node, in order.
pub(crate) fn children(alloc: Global, rows: &[Row]) -> Result<Vec<Vec<u32>>, AllocError>
    requires tree { IsTree (nodes_in rows.now) }
    requires fits { length rows.now ≤ NODES }
    ensures { IfOk result (λ v. map (λ c. c.items) v.items
        ≡ column (children (nodes_in rows.now)) (length rows.now)) }
{
    let mut children = no_children(alloc, rows.len())?;
    'nodes: for n in 1..rows.len() {
        let parent = rows[n].parent as usize;
        let siblings = &mut children[parent];
        siblings.push(n as u32)?;
    }
    Ok(children)
}

/// An empty list for each of `count` nodes.
fn no_children(alloc: Global, count: usize) -> Result<Vec<Vec<u32>>, AllocError>
    ensures { IfOk result (λ v. map (λ c. c.items) v.items ≡ column (λ n. []) count) }
{
    let mut children = Vec::with_capacity(alloc, count)?;
    'nodes: for _n in 0..count {
        children.push(Vec::new(alloc))?;
    }
    Ok(children)
}
