//! The access rights of each node.
ghost use Rattle.std.specs.Prelude.{◌≡◌, ◌<◌, ◌↔◌, ℕ, List, IfOk, IsTrue, length, map};
ghost use Rattle.iso_model.specs.Rights.{rights_of, strongest};
ghost use Rattle.iso_plan.specs.NodeChains.{node_rights};
ghost use Rattle.iso_plan.specs.Paths.{IsTree, column};
ghost use Rattle.iso_plan.specs.RowView.{nodes_in, rights_in, written_in};

use crate::row::Row;
use iso_model::heads::Mark;
use iso_model::rights::Rights;
use iso_model::same::heads::same_marks;
use std::alloc::{AllocError, Global};
use std::sync::Arc;

/// The access rights that each node's chain gives: those of the node's parent, which it
/// shares, and its own. A node without marks has its parent's, and one with the written marks of the
/// sibling before it that one's.
pub(crate) fn rights(alloc: Global, rows: &[Row]) -> Result<Vec<Arc<Rights>>, AllocError>
    requires { IsTree (nodes_in rows.now) }
    ensures { IfOk result (λ v. map rights_in v.items
        ≡ column (node_rights (nodes_in rows.now)) (length rows.now)) }
{
    let mut rights: Vec<Arc<Rights>> = Vec::with_capacity(alloc, rows.len())?;
    'nodes: for n in 0..rows.len() {
        let own = rights_at(alloc, rows, &rights, n)?;
        rights.push(own)?;
    }
    Ok(rights)
}

/// The rights of node n, where those of the nodes before it are known.
fn rights_at(
    alloc: Global,
    rows: &[Row],
    known: &[Arc<Rights>],
    n: usize,
) -> Result<Arc<Rights>, AllocError>
    requires tree { IsTree (nodes_in rows.now) }
    requires within { n < length rows.now }
    requires known { map rights_in known.now
        ≡ column (node_rights (nodes_in rows.now)) n }
    ensures { IfOk result
        (λ r. (k : List ℕ) → rights_in r k ≡ node_rights (nodes_in rows.now) n k) }
{
    if n == 0 {
        return Ok(Arc::new(alloc, Rights::new(alloc))?);
    }
    if n > 1 && are_alike(&rows[n - 1], &rows[n]) {
        return Ok(known[n - 1].clone()?);
    }
    let row = &rows[n];
    below(alloc, &known[row.parent as usize], row.kind.marks())
}

/// Whether two nodes are children of one class, with the same marks written on them: so they have
/// the same effective marks and the same rights.
pub(crate) fn are_alike(a: &Row, b: &Row) -> bool
    ensures { IsTrue result ↔ ((a.now.parent ≡ b.now.parent)
        × (written_in a.now.extras ≡ written_in b.now.extras)) }
{
    a.parent == b.parent && same_marks(a.written(), b.written())
}

/// The rights of a child of a class with these rights, where these are the child's own marks: one
/// without marks shares them.
fn below(alloc: Global, above: &Arc<Rights>, marks: &[Mark]) -> Result<Arc<Rights>, AllocError>
    ensures { IfOk result (λ r. (k : List ℕ) → rights_in r k
        ≡ strongest (rights_of marks.now k) (rights_in above.now k)) }
{
    if marks.is_empty() {
        return above.clone();
    }
    Ok(Arc::new(alloc, above.within(alloc, marks)?)?)
}
