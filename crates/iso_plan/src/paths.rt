//! The paths of nodes as texts: the names of the team, the enclosing classes and the node, with
//! dots between them.
ghost use Rattle.std.specs.Prelude.{◌≡◌, ◌<◌, ◌++◌, ◌==◌, IfOk, bytes_eq, codes, cond, length, slice_index_or};
ghost use Rattle.iso_plan.specs.Paths.{IsRooted, IsTree, column, parent, row_at};
ghost use Rattle.iso_plan.specs.PathTexts.{path_text};
ghost use Rattle.iso_plan.specs.RowView.{nodes_in, row_of};

use crate::row::Row;
use iso_model::text::Text;
use std::alloc::{AllocError, Global};

/// The path of each node; the root's is empty.
pub(crate) fn path_texts(alloc: Global, rows: &[Row]) -> Result<Vec<Text>, AllocError>
    requires { IsRooted (nodes_in rows.now) }
    ensures { IfOk result (λ v. v.items ≡ column (path_text (nodes_in rows.now))
        (length rows.now)) }
{
    let mut paths = Vec::with_capacity(alloc, rows.len())?;
    paths.push(Text::new(String::new(alloc)))?;
    'nodes: for n in 1..rows.len() {
        let class = rows[n].parent as usize;
        let path = path_in(alloc, class, &paths[class], rows[n].name.as_str())?;
        paths.push(path)?;
    }
    Ok(paths)
}

/// The path of a node of this name that is a child of the class with this number and path, or of
/// the root.
fn path_in(alloc: Global, class: usize, above: &Text, name: &str) -> Result<Text, AllocError>
    ensures { IfOk result (λ t. t ≡ cond (class == 0) name.now
        (above.now ++ (codes "." ++ name.now))) }
{
    if class == 0 {
        return Text::copied(alloc, name);
    }
    let above = above.as_str();
    Ok(Text::new(format!(in alloc; "{above}.{name}")?))
}

/// Whether a text is the path of a node other than the root. It calls itself once for each
/// enclosing class of the node.
#[cycle(path)]
pub(crate) fn is_path_of(rows: &[Row], node: usize, path: &[u8]) -> bool
    requires tree { IsTree (nodes_in rows.now) }
    requires above { 0 < node }
    requires within { node < length rows.now }
    ensures { result ≡ bytes_eq (path_text (nodes_in rows.now) node) path.now }
{
    let name = rows[node].name.as_str().as_bytes();
    let class = rows[node].parent as usize;
    let Some(rest) = path.strip_suffix(name) else {
        return false;
    };
    if class == 0 {
        return rest.is_empty();
    }
    match rest.strip_suffix(b".") {
        Some(above) => is_path_of(rows, class, above),
        None => false,
    }
}
