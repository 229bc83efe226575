//! The rows of all nodes that a change can alter.
ghost use Rattle.std.specs.Prelude.{◌≡◌, ◌++◌, ◌∷◌, ◌<◌, [], IfOk, OnOk, flat_map, length, map};
ghost use Rattle.iso_affected.specs.Fates.{IsNode};
ghost use Rattle.iso_affected_text.specs.Affected.{affected_rows, fate_rows, gone_rows, node_rows, nodes_rows, own_rows, reasons_on, told_rows};
ghost use Rattle.iso_affected_text.specs.Changes.{IsChange, change_of};
ghost use Rattle.iso_affected_text.specs.Rows.{node_row, row_of};
ghost use Rattle.iso_plan.specs.PathTexts.{path_text};
ghost use Rattle.iso_plan.specs.Paths.{path};
ghost use Rattle.iso_plan.specs.RowView.{tree_of};

use crate::change::{Change, path_at};
use crate::parts::add_difference;
use crate::row::{Became, Row};
use iso_affected::affected::Fate;
use iso_affected::difference::Difference;
use iso_affected::listed::is_listed;
use iso_plan::laws;
use std::alloc::{AllocError, Global};

/// The rows of the nodes that a change can alter, as they are written: those of the new suite that
/// are changed, each with its reasons, or new, and behind them those of the old suite that are
/// gone.
pub fn affected_rows<'a>(alloc: Global, change: &Change<'a>) -> Result<Vec<Row<'a>>, AllocError>
    requires { IsChange change.now }
    ensures { IfOk result (λ rows. map row_of rows.items ≡ affected_rows (change_of change.now)) }
{
    let mut rows = Vec::new(alloc);
    add_nodes(&mut rows, change)?;
    add_gone(&mut rows, change)?;
    Ok(rows)
}

/// Adds the rows of the nodes of the new suite.
fn add_nodes<'a>(rows: &mut Vec<Row<'a>>, change: &Change<'a>) -> Result<(), AllocError>
    requires { IsChange change.now }
    ensures { OnOk result (map row_of rows.new.items ≡ map row_of rows.old.items
        ++ nodes_rows (change_of change.now) (length change.now.new.plan.now.rows)) }
{
    laws::nodes_are_a_tree(change.new.plan);
    'nodes: for node in 1..change.new.plan.len() {
        add_node(rows, change, node)?;
    }
    Ok(())
}

/// Adds the rows of a node of the new suite, if it is told of and isn't the same.
fn add_node<'a>(rows: &mut Vec<Row<'a>>, change: &Change<'a>, node: u32) -> Result<(), AllocError>
    requires change { IsChange change.now }
    requires node { IsNode (tree_of change.now.new.plan.now) node }
    ensures { OnOk result (map row_of rows.new.items ≡ map row_of rows.old.items
        ++ node_rows (change_of change.now) node) }
{
    if !is_listed(change.new.plan, node) {
        return Ok(());
    }
    add_fate(rows, change, node, change.fates[node as usize])
}

/// Adds the rows of a node of the new suite with a fate.
fn add_fate<'a>(
    rows: &mut Vec<Row<'a>>,
    change: &Change<'a>,
    node: u32,
    fate: Fate,
) -> Result<(), AllocError>
    requires change { IsChange change.now }
    requires within { node < length change.now.new.plan.now.rows }
    ensures { OnOk result (map row_of rows.new.items ≡ map row_of rows.old.items
        ++ fate_rows (change_of change.now) node fate) }
{
    match fate {
        Fate::Same(_) => Ok(()),
        Fate::Changed(_) => {
            add_row(rows, change, node, Became::Changed)?;
            add_reasons(rows, change, node)
        }
        Fate::New => add_row(rows, change, node, Became::New),
    }
}

/// Adds the row of what became of a node of the new suite.
fn add_row<'a>(
    rows: &mut Vec<Row<'a>>,
    change: &Change<'a>,
    node: u32,
    became: Became,
) -> Result<(), AllocError>
    requires change { IsChange change.now }
    requires within { node < length change.now.new.plan.now.rows }
    ensures { OnOk result (map row_of rows.new.items
        ≡ map row_of rows.old.items ++ node_row became
        (path_text (tree_of change.now.new.plan.now) node) ∷ []) }
{
    let path = path_at(&change.new, node);
    rows.push(Row::Node { became, path })?;
    Ok(())
}

/// Adds the rows of what differs of the nodes on a node's path, the outermost class first. It calls
/// itself once for each enclosing class of the node.
#[cycle(reasons)]
fn add_reasons<'a>(
    rows: &mut Vec<Row<'a>>,
    change: &Change<'a>,
    node: u32,
) -> Result<(), AllocError>
    requires change { IsChange change.now }
    requires within { node < length change.now.new.plan.now.rows }
    ensures { OnOk result (map row_of rows.new.items
        ≡ map row_of rows.old.items ++ reasons_on (change_of change.now)
        (path (tree_of change.now.new.plan.now) node)) }
{
    laws::parents_come_first(change.new.plan);
    laws::paths_lead_up(change.new.plan);
    match change.new.plan.parent(node) {
        Some(class) => {
            add_reasons(rows, change, class)?;
            add_own(rows, change, node)
        }
        None => Ok(()),
    }
}

/// Adds the rows of what differs of a node and its namesake, if it is changed.
fn add_own<'a>(rows: &mut Vec<Row<'a>>, change: &Change<'a>, node: u32) -> Result<(), AllocError>
    requires change { IsChange change.now }
    requires node { IsNode (tree_of change.now.new.plan.now) node }
    ensures { OnOk result (map row_of rows.new.items ≡ map row_of rows.old.items
        ++ own_rows (change_of change.now) node) }
{
    laws::nodes_are_a_tree(change.new.plan);
    match change.fates[node as usize] {
        Fate::Changed(namesake) => {
            add_told(rows, change, node, namesake, change.told[node as usize])
        }
        Fate::Same(_) | Fate::New => Ok(()),
    }
}

/// Adds the rows of what differs of a node and its namesake, if something is told of it.
fn add_told<'a>(
    rows: &mut Vec<Row<'a>>,
    change: &Change<'a>,
    node: u32,
    namesake: u32,
    told: Option<Difference>,
) -> Result<(), AllocError>
    requires change { IsChange change.now }
    requires node { IsNode (tree_of change.now.new.plan.now) node }
    requires namesake { IsNode (tree_of change.now.old.plan.now) namesake }
    ensures { OnOk result (map row_of rows.new.items ≡ map row_of rows.old.items
        ++ told_rows (change_of change.now) node namesake told) }
{
    match told {
        Some(difference) => add_difference(rows, change, node, namesake, difference),
        None => Ok(()),
    }
}

/// Adds the rows of the nodes of the old suite that are gone.
fn add_gone<'a>(rows: &mut Vec<Row<'a>>, change: &Change<'a>) -> Result<(), AllocError>
    requires { IsChange change.now }
    ensures { OnOk result (map row_of rows.new.items
        ≡ map row_of rows.old.items ++ flat_map
        (gone_rows (change_of change.now)) change.now.gone.now) }
{
    'nodes: for node in change.gone {
        add_gone_node(rows, change, *node)?;
    }
    Ok(())
}

/// Adds the row of a node of the old suite that is gone, if it is told of.
fn add_gone_node<'a>(
    rows: &mut Vec<Row<'a>>,
    change: &Change<'a>,
    node: u32,
) -> Result<(), AllocError>
    requires change { IsChange change.now }
    requires node { IsNode (tree_of change.now.old.plan.now) node }
    ensures { OnOk result (map row_of rows.new.items ≡ map row_of rows.old.items
        ++ gone_rows (change_of change.now) node) }
{
    if !is_listed(change.old.plan, node) {
        return Ok(());
    }
    let became = Became::Gone;
    let path = path_at(&change.old, node);
    rows.push(Row::Node { became, path })?;
    Ok(())
}
