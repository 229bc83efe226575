//! The nodes that are kept where some are named by their paths.
ghost use Rattle.std.specs.Prelude.{◌≡◌, ◌<◌, ◌||◌, ◌^◌, ℕ, Bool, List, None, IfErr, IfOk, OnOk, length, slice_index_or, false};
ghost use Rattle.iso_model.specs.NameSets.{Knows};
ghost use Rattle.iso_plan.specs.Faults.{IsFaultOf, not_selected};
ghost use Rattle.iso_plan.specs.Paths.{IsRooted, column, is_on, path};
ghost use Rattle.iso_plan.specs.PathTexts.{path_text};
ghost use Rattle.iso_plan.specs.RowView.{nodes_in, row_of};
ghost use Rattle.iso_plan.specs.KeptNodes.{first_unknown, is_chosen, is_kept_by, is_named, node_paths, number_among, renumbered, selection, texts_of, those_below, those_of};

use crate::fault::{PlanError, PlanFault};
use crate::paths::path_texts;
use crate::row::Row;
use iso_model::distinct::claim;
use iso_model::text::Text;
use std::alloc::{AllocError, Global};
use std::collections::BTreeSet;

/// The nodes that are kept where these paths name some, numbered anew: a named node, its
/// descendants, and its enclosing classes. Where no path is given, all are. The first path that
/// names no node is `NotSelected`.
pub(crate) fn selection(alloc: Global, rows: Vec<Row>, only: &[&str]) -> Result<Vec<Row>, PlanError>
    requires tree { IsRooted (nodes_in rows.items) }
    requires fits { length rows.items < 2 ^ 32 }
    ensures kept { IfOk result (λ v. nodes_in v.items
        ≡ selection (nodes_in rows.items) (texts_of only.now)) }
    ensures known { IfOk result
        (λ v. first_unknown (nodes_in rows.items) (texts_of only.now) ≡ None) }
    ensures unknown { IfErr result
        (IsFaultOf (not_selected (first_unknown (nodes_in rows.items) (texts_of only.now)))) }
{
    if only.is_empty() {
        return Ok(rows);
    }
    let kept = kept_by(alloc, &rows, only)?;
    Ok(those_of(alloc, rows, &kept)?)
}

/// Whether each node is kept where some are named by these paths. The first path that names no node
/// is `NotSelected`.
fn kept_by(alloc: Global, rows: &[Row], only: &[&str]) -> Result<Vec<bool>, PlanError>
    requires { IsRooted (nodes_in rows.now) }
    ensures kept { IfOk result (λ v. v.items
        ≡ column (is_kept_by (nodes_in rows.now) (texts_of only.now)) (length rows.now)) }
    ensures known { IfOk result
        (λ v. first_unknown (nodes_in rows.now) (texts_of only.now) ≡ None) }
    ensures unknown { IfErr result
        (IsFaultOf (not_selected (first_unknown (nodes_in rows.now) (texts_of only.now)))) }
{
    let paths = path_texts(alloc, rows)?;
    check_known(alloc, rows, &paths, only)?;
    let chosen = chosen(alloc, rows, &paths, only)?;
    Ok(kept(alloc, rows, &chosen)?)
}

/// Refuses the first path that is that of no node.
fn check_known(alloc: Global, rows: &[Row], paths: &[Text], only: &[&str]) -> Result<(), PlanError>
    requires tree { IsRooted (nodes_in rows.now) }
    requires paths { paths.now ≡ column (path_text (nodes_in rows.now)) (length rows.now) }
    ensures ok { OnOk result (first_unknown (nodes_in rows.now) (texts_of only.now) ≡ None) }
    ensures err { IfErr result
        (IsFaultOf (not_selected (first_unknown (nodes_in rows.now) (texts_of only.now)))) }
{
    let known = known_paths(alloc, rows, paths)?;
    'only: for index in 0..only.len() {
        if !known.contains(only[index]) {
            return Err(PlanError::Fault(PlanFault::NotSelected(index)));
        }
    }
    Ok(())
}

/// The paths of all nodes but the root, as a set.
fn known_paths<'a>(
    alloc: Global,
    rows: &[Row],
    paths: &'a [Text],
) -> Result<BTreeSet<&'a str>, AllocError>
    requires tree { IsRooted (nodes_in rows.now) }
    requires paths { paths.now ≡ column (path_text (nodes_in rows.now)) (length rows.now) }
    ensures { IfOk result (λ known. Knows known (node_paths (nodes_in rows.now))) }
{
    let mut known = BTreeSet::new(alloc);
    'nodes: for n in 1..paths.len() {
        claim(&mut known, paths[n].as_str())?;
    }
    Ok(known)
}

/// These texts, as a set.
fn set_of<'a>(alloc: Global, only: &[&'a str]) -> Result<BTreeSet<&'a str>, AllocError>
    ensures { IfOk result (λ set. Knows set (texts_of only.now)) }
{
    let mut set = BTreeSet::new(alloc);
    'texts: for text in only {
        claim(&mut set, *text)?;
    }
    Ok(set)
}

/// Whether each node is named, or a descendant of one that is.
fn chosen(
    alloc: Global,
    rows: &[Row],
    paths: &[Text],
    only: &[&str],
) -> Result<Vec<bool>, AllocError>
    requires tree { IsRooted (nodes_in rows.now) }
    requires paths { paths.now ≡ column (path_text (nodes_in rows.now)) (length rows.now) }
    ensures { IfOk result (λ v. v.items ≡ column (is_chosen (nodes_in rows.now) (texts_of only.now))
        (length rows.now)) }
{
    let wanted = set_of(alloc, only)?;
    let mut chosen = Vec::with_capacity(alloc, rows.len())?;
    chosen.push(false)?;
    'nodes: for n in 1..rows.len() {
        let above = chosen[rows[n].parent as usize];
        chosen.push(wanted.contains(paths[n].as_str()) || above)?;
    }
    Ok(chosen)
}

/// Whether each node is chosen, or one of its descendants is, or it is the root.
fn kept(alloc: Global, rows: &[Row], chosen: &[bool]) -> Result<Vec<bool>, AllocError>
    requires tree { IsRooted (nodes_in rows.now) }
    requires each { length chosen.now ≡ length rows.now }
    ensures { (only : List (List ℕ)) → chosen.now
        ≡ column (is_chosen (nodes_in rows.now) only) (length rows.now)
        → IfOk result (λ v. v.items ≡ column (is_kept_by (nodes_in rows.now) only)
        (length rows.now)) }
{
    let mut kept = vec![in alloc; false; rows.len()]?;
    kept[0] = true;
    'nodes: for n in 1..rows.len() {
        if chosen[n] {
            mark_path(&mut kept, rows, n);
        }
    }
    Ok(kept)
}

/// Marks a node and all its ancestors but the root.
fn mark_path(kept: &mut Vec<bool>, rows: &[Row], node: usize)
    requires tree { IsRooted (nodes_in rows.now) }
    requires within { node < length rows.now }
    requires each { length kept.old.items ≡ length rows.now }
    ensures marked { (m : ℕ) → slice_index_or kept.new.items m false
        ≡ (is_on (path (nodes_in rows.now) node) m || slice_index_or kept.old.items m false) }
    ensures each { length kept.new.items ≡ length kept.old.items }
{
    let mut at = node;
    while at > 0 {
        kept[at] = true;
        at = rows[at].parent as usize;
    }
}

/// The nodes that are kept, numbered anew.
fn those_of(alloc: Global, rows: Vec<Row>, kept: &[bool]) -> Result<Vec<Row>, AllocError>
    requires tree { IsRooted (nodes_in rows.items) }
    requires each { length kept.now ≡ length rows.items }
    requires fits { length rows.items < 2 ^ 32 }
    ensures { IfOk result (λ v. nodes_in v.items
        ≡ those_of (λ n. slice_index_or kept.now n false) (nodes_in rows.items)) }
{
    let mut numbers = Vec::with_capacity(alloc, kept.len())?;
    let mut left = Vec::new(alloc);
    'nodes: for row in rows {
        let is_kept = kept[numbers.len()];
        numbers.push(left.len() as u32)?;
        if is_kept {
            left.push(renumbered(row, &numbers))?;
        } else {
            drop(row);
        }
    }
    Ok(left)
}

/// A node in a class whose number is another now.
fn renumbered(row: Row, numbers: &[u32]) -> Row
    requires { row.parent < length numbers.now }
    ensures { (passes : ℕ → Bool) → numbers.now ≡ column (number_among passes) (length numbers.now)
        → row_of result ≡ renumbered passes (row_of row) }
{
    let mut row = row;
    row.parent = numbers[row.parent as usize];
    row
}
