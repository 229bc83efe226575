//! The locking node of each path.
ghost use Rattle.std.specs.Prelude.{◌≡◌, ◌≤◌, IfOk, length};
ghost use Rattle.iso_model.specs.declared.limits.TheConstants.{NODES};
ghost use Rattle.iso_plan.specs.Locks.{declares, holds_isolated, locking_node};
ghost use Rattle.iso_plan.specs.Paths.{IsTree, column};
ghost use Rattle.iso_plan.specs.RowView.{nodes_in};

use crate::outermost::outermost;
use crate::row::Row;
use std::alloc::{AllocError, Global};

/// The locking node of each node's path.
pub(crate) fn locking_nodes(
    alloc: Global,
    rows: &[Row],
    isolated: &[bool],
) -> Result<Vec<Option<u32>>, AllocError>
    requires tree { IsTree (nodes_in rows.now) }
    requires fits { length rows.now ≤ NODES }
    requires isolated { isolated.now ≡ column (holds_isolated (nodes_in rows.now))
        (length rows.now) }
    ensures { IfOk result (λ v. v.items ≡ column (locking_node (nodes_in rows.now))
        (length rows.now)) }
{
    let declaring = declaring(alloc, rows, isolated)?;
    outermost(alloc, rows, &declaring)
}

/// For each node whether it would lock for all its descendants.
fn declaring(alloc: Global, rows: &[Row], isolated: &[bool]) -> Result<Vec<bool>, AllocError>
    requires { isolated.now ≡ column (holds_isolated (nodes_in rows.now)) (length rows.now) }
    ensures { IfOk result (λ v. v.items ≡ column (declares (nodes_in rows.now)) (length rows.now)) }
{
    let mut declaring = Vec::with_capacity(alloc, rows.len())?;
    'nodes: for n in 0..rows.len() {
        declaring.push(isolated[n] || !rows[n].kind.marks().is_empty())?;
    }
    Ok(declaring)
}
