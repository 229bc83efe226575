//! The outermost node of each path that passes a test.
ghost use Rattle.std.specs.Prelude.{◌≡◌, ◌≤◌, ℕ, Bool, cond, IfOk, length};
ghost use Rattle.iso_model.specs.declared.limits.TheConstants.{NODES};
ghost use Rattle.iso_plan.specs.Paths.{IsTree, column, outermost, path};
ghost use Rattle.iso_plan.specs.RowView.{nodes_in};

use crate::row::Row;
use std::alloc::{AllocError, Global};

/// The outermost node on the path of each node that passes.
pub(crate) fn outermost(
    alloc: Global,
    rows: &[Row],
    passes: &[bool],
) -> Result<Vec<Option<u32>>, AllocError>
    requires tree { IsTree (nodes_in rows.now) }
    requires fits { length rows.now ≤ NODES }
    requires each { length passes.now ≡ length rows.now }
    ensures { (test : ℕ → Bool) → passes.now ≡ column test (length rows.now)
        → IfOk result (λ v. v.items
        ≡ column (λ n. outermost test (path (nodes_in rows.now) n)) (length rows.now)) }
{
    let mut found: Vec<Option<u32>> = Vec::with_capacity(alloc, rows.len())?;
    found.push(None)?;
    'nodes: for n in 1..rows.len() {
        let above = found[rows[n].parent as usize];
        found.push(above.or(passed(passes[n], n as u32)))?;
    }
    Ok(found)
}

/// The node, if it passes.
fn passed(passes: bool, node: u32) -> Option<u32>
    ensures { result ≡ cond passes (Some node) None }
{
    passes.then_some(node)
}
