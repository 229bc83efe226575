//! The namesakes of nodes in another plan.
ghost use Rattle.std.specs.Prelude.{◌≡◌, ◌<◌, IfOk, IfSome, Some, length};
ghost use Rattle.std.specs.List.{All};
ghost use Rattle.iso_affected.specs.Namesakes.{child_named, namesake};
ghost use Rattle.iso_affected.specs.NameTables.{FindChildren, FindsNamed};
ghost use Rattle.iso_plan.specs.Children.{IsChild};
ghost use Rattle.iso_plan.specs.Paths.{children, column, parent, row_at};
ghost use Rattle.iso_plan.specs.RowView.{tree_of};

use iso_plan::laws;
use iso_plan::plan::Plan;
use std::alloc::{AllocError, Global};
use std::collections::BTreeMap;

/// The namesakes in the first plan of the nodes of the second, by their numbers.
pub fn namesakes(alloc: Global, one: &Plan, other: &Plan) -> Result<Vec<Option<u32>>, AllocError>
    ensures { IfOk result (λ v. v.items ≡ column (namesake (tree_of one.now) (tree_of other.now))
        (length other.now.rows)) }
{
    laws::nodes_are_a_tree(one);
    laws::nodes_are_a_tree(other);
    let names = names(alloc, one)?;
    let mut namesakes = Vec::with_capacity(alloc, other.len() as usize)?;
    namesakes.push(Some(0))?;
    'nodes: for node in 1..other.len() {
        let class = other.parent(node).unwrap_or(0);
        let namesake = match namesakes[class as usize] {
            Some(class) => namesake_in(one, &names, class, other, node),
            None => None,
        };
        namesakes.push(namesake)?;
    }
    Ok(namesakes)
}

/// The namesake in the first plan of a node of the second, from that of the node's parent. It is a
/// child of that.
pub(crate) fn namesake_in(
    one: &Plan,
    names: &[BTreeMap<&str, u32>],
    class: u32,
    other: &Plan,
    node: u32,
) -> Option<u32>
    requires above { 0 < node }
    requires within { node < length other.now.rows }
    requires inside { class < length one.now.rows }
    requires class { namesake (tree_of one.now) (tree_of other.now)
        (parent (tree_of other.now) node) ≡ Some class }
    requires names { FindChildren (tree_of one.now) names.now }
    ensures namesake { result ≡ namesake (tree_of one.now) (tree_of other.now) node }
    ensures child { IfSome result (IsChild (tree_of one.now) class (length one.now.rows)) }
{
    laws::nodes_are_a_tree(other);
    child_named(one, names, class, other.name(node))
}

/// The first child of a class with this name.
fn child_named(plan: &Plan, names: &[BTreeMap<&str, u32>], class: u32, name: &str) -> Option<u32>
    requires within { class < length plan.now.rows }
    requires names { FindChildren (tree_of plan.now) names.now }
    ensures named { result ≡ child_named (tree_of plan.now) name.now (Some class) }
    ensures child { IfSome result (IsChild (tree_of plan.now) class (length plan.now.rows)) }
{
    laws::children_have_their_parent(plan);
    names[class as usize].get(name).copied()
}

/// For each node of a plan a table of its children, by their names. Of several with
/// one name it has the first.
pub(crate) fn names<'a>(
    alloc: Global,
    plan: &'a Plan,
) -> Result<Vec<BTreeMap<&'a str, u32>>, AllocError>
    ensures { IfOk result (λ tables. FindChildren (tree_of plan.now) tables.items) }
{
    laws::children_have_their_parent(plan);
    let mut tables = Vec::with_capacity(alloc, plan.len() as usize)?;
    'classes: for class in 0..plan.len() {
        let table = names_of(alloc, plan, plan.children(class))?;
        tables.push(table)?;
    }
    Ok(tables)
}

/// A table of nodes by their names. Of several with one name it has the first.
fn names_of<'a>(
    alloc: Global,
    plan: &'a Plan,
    nodes: &[u32],
) -> Result<BTreeMap<&'a str, u32>, AllocError>
    requires { All (λ n. n < length plan.now.rows) nodes.now }
    ensures { IfOk result (FindsNamed (tree_of plan.now) nodes.now) }
{
    let mut table = BTreeMap::new(alloc);
    'nodes: for place in (0..nodes.len()).rev() {
        let node = nodes[place];
        table.insert(plan.name(node), node)?;
    }
    Ok(table)
}
