//! The effective marks of nodes (JUnit 5, `ResourceLockTarget`).
ghost use Rattle.std.specs.Prelude.{◌≡◌, ◌<◌, ◌-◌, ◌++◌, ◌∷◌, [], IfOk, OnOk, length, map, true};
ghost use Rattle.iso_model.specs.Targets.{effective, marks_for};
ghost use Rattle.iso_plan.specs.KeyTable.{kind_marks};
ghost use Rattle.iso_plan.specs.Paths.{StandEarlier, is_test, parent, row_at};
ghost use Rattle.iso_plan.specs.Repeated.{effective_at};
ghost use Rattle.iso_plan.specs.RowView.{kind_of, nodes_in};
ghost use Rattle.iso_plan.specs.Tree.{effective_row, with_marks};

use crate::repeated::repeats;
use crate::row::{Kind, Row};
use iso_model::heads::{ClassHead, Mark, Target, TestHead};
use iso_model::shared_list::SharedList;
use std::alloc::{AllocError, Global};
use std::sync::Arc;

/// Gives each node its effective marks, where the nodes have those that are written on them. What
/// has no marks and gets none stays as it is.
pub(crate) fn make_effective(alloc: Global, rows: &mut Vec<Row>) -> Result<(), AllocError>
    requires { StandEarlier (nodes_in rows.old.items) }
    ensures { OnOk result (nodes_in rows.new.items
        ≡ map (effective_row (nodes_in rows.old.items)) (nodes_in rows.old.items)) }
{
    'nodes: for n in 0..rows.len() {
        let marks = marks_at(alloc, rows.as_slice(), n)?;
        if marks.is_empty() && rows[n].kind.marks().is_empty() {
            continue;
        }
        let kind = with_marks(alloc, &rows[n].kind, marks)?;
        rows[n].kind = kind;
    }
    Ok(())
}

/// The effective marks of node n, where the node before it has its own, if that is a test. A test
/// that repeats the node before it shares that one's.
fn marks_at(alloc: Global, rows: &[Row], n: usize) -> Result<SharedList<Mark>, AllocError>
    requires within { n < length rows.now }
    requires class { parent (nodes_in rows.now) n < length rows.now }
    requires before { 0 < n → is_test (row_at (nodes_in rows.now) (n - 1)).kind ≡ true
        → kind_marks (row_at (nodes_in rows.now) (n - 1)).kind
        ≡ effective_at (nodes_in rows.now) (n - 1) }
    ensures { IfOk result (λ m. m ≡ effective_at (nodes_in rows.now) n) }
{
    if repeats(rows, n)
        && let Kind::Test { head } = &rows[n - 1].kind
    {
        return head.marks.share();
    }
    let above = rows[n].parent as usize;
    let marks = effective(alloc, rows[above].written(), rows[n].written())?;
    SharedList::new(alloc, marks)
}

/// A node of this kind with these marks.
fn with_marks(alloc: Global, kind: &Kind, marks: SharedList<Mark>) -> Result<Kind, AllocError>
    ensures { IfOk result (λ k. kind_of k ≡ with_marks marks (kind_of kind.now)) }
{
    match kind {
        Kind::Root => Ok(Kind::Root),
        Kind::Class { isolated, head } => {
            let contents = head.contents.clone()?;
            let head = Arc::new(alloc, ClassHead { marks, contents })?;
            Ok(Kind::Class {
                isolated: *isolated,
                head,
            })
        }
        Kind::Test { head } => {
            let contents = head.contents.clone()?;
            let head = Arc::new(alloc, TestHead { marks, contents })?;
            Ok(Kind::Test { head })
        }
    }
}

/// The effective marks of a node, where `above` is written on its parent and `written` on
/// itself.
fn effective(alloc: Global, above: &[Mark], written: &[Mark]) -> Result<Vec<Mark>, AllocError>
    ensures { IfOk result (λ v. v.items ≡ effective above.now written.now) }
{
    let mut marks = Vec::new(alloc);
    add_marks(&mut marks, written, Target::Itself)?;
    add_marks(&mut marks, above, Target::Children)?;
    Ok(marks)
}

/// Adds those of the written marks that are for a target, as marks of the node for which they are.
/// Mostly there are none.
#[inline(always)]
fn add_marks(marks: &mut Vec<Mark>, written: &[Mark], target: Target) -> Result<(), AllocError>
    ensures { OnOk result (marks.new.items ≡ marks.old.items ++ marks_for target written.now) }
{
    'marks: for mark in written {
        add_mark(marks, mark, target)?;
    }
    Ok(())
}

/// Adds a written mark, if it is for a target, as a mark of the node for which it is.
fn add_mark(marks: &mut Vec<Mark>, mark: &Mark, target: Target) -> Result<(), AllocError>
    ensures { OnOk result (marks.new.items ≡ marks.old.items ++ marks_for target (mark.now ∷ [])) }
{
    if mark.target.is(target) {
        marks.push(mark.for_itself()?)?;
    }
    Ok(())
}
