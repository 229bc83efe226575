//! The class chain of each node.
ghost use Rattle.std.specs.Prelude.{◌≡◌, ◌++◌, IfOk, length, map};
ghost use Rattle.iso_model.specs.ChainView.{innermost_first};
ghost use Rattle.iso_plan.specs.NodeChains.{chain_classes, class_heads};
ghost use Rattle.iso_plan.specs.Paths.{IsTree, column};
ghost use Rattle.iso_plan.specs.RowView.{heads_in, kind_of, nodes_in};

use crate::row::{Kind, Row};
use iso_model::heads::ClassHead;
use std::alloc::{AllocError, Global};
use std::sync::Arc;

/// The class heads of each node's chain, outermost first. They share the script's, and a test
/// shares its class's list.
pub(crate) fn chains(
    alloc: Global,
    rows: &[Row],
) -> Result<Vec<Arc<Vec<Arc<ClassHead>>>>, AllocError>
    requires { IsTree (nodes_in rows.now) }
    ensures { IfOk result (λ v. map heads_in v.items
        ≡ column (chain_classes (nodes_in rows.now)) (length rows.now)) }
{
    let mut chains: Vec<Arc<Vec<Arc<ClassHead>>>> = Vec::with_capacity(alloc, rows.len())?;
    'nodes: for n in 0..rows.len() {
        let row = &rows[n];
        let chain = if n == 0 {
            Arc::new(alloc, Vec::new(alloc))?
        } else {
            chain(alloc, &chains[row.parent as usize], &row.kind)?
        };
        chains.push(chain)?;
    }
    Ok(chains)
}

/// The chain of a node, from that of its parent.
fn chain(
    alloc: Global,
    above: &Arc<Vec<Arc<ClassHead>>>,
    kind: &Kind,
) -> Result<Arc<Vec<Arc<ClassHead>>>, AllocError>
    ensures { IfOk result (λ v. heads_in v
        ≡ class_heads (kind_of kind.now) ++ heads_in above.now) }
{
    match kind {
        Kind::Root | Kind::Test { .. } => above.clone(),
        Kind::Class { head, .. } => {
            let mut chain = shared(alloc, above)?;
            chain.push(head.clone()?)?;
            Ok(Arc::new(alloc, chain)?)
        }
    }
}

/// The same heads, shared, with room for one more.
fn shared(alloc: Global, heads: &[Arc<ClassHead>]) -> Result<Vec<Arc<ClassHead>>, AllocError>
    ensures { IfOk result (λ v. innermost_first v.items ≡ innermost_first heads.now) }
{
    let mut chain = Vec::with_capacity(alloc, heads.len() + 1)?;
    'heads: for head in heads {
        chain.push(head.clone()?)?;
    }
    Ok(chain)
}
