//! Which top-level classes are isolated, or hold a class that is (JUnit 5, `@Isolated`).
ghost use Rattle.std.specs.Prelude.{◌≡◌, ◌<◌, ◌≤◌, ◌||◌, ◌&&◌, ℕ, false, true, IfOk, IfSome, length, slice_index_or};
ghost use Rattle.std.specs.List.{list_any};
ghost use Rattle.iso_model.specs.declared.limits.TheConstants.{NODES};
ghost use Rattle.iso_plan.specs.KeyTable.{kind_marks};
ghost use Rattle.iso_plan.specs.Locks.{holds_isolated, is_isolated, is_that, marks_global};
ghost use Rattle.iso_plan.specs.Paths.{IsTree, column, outermost, path};
ghost use Rattle.iso_plan.specs.RowView.{kind_of, nodes_in, written_in};

use crate::keys::GLOBAL_KEY;
use crate::outermost::outermost;
use crate::row::{Kind, Row};
use iso_model::heads::Mark;
use std::alloc::{AllocError, Global};

/// For each node whether it is a top-level class that is isolated or holds an isolated class.
pub(crate) fn isolated(alloc: Global, rows: &[Row]) -> Result<Vec<bool>, AllocError>
    requires tree { IsTree (nodes_in rows.now) }
    requires fits { length rows.now ≤ NODES }
    ensures { IfOk result (λ v. v.items ≡ column (holds_isolated (nodes_in rows.now))
        (length rows.now)) }
{
    if !any_isolates(rows) {
        return Ok(vec![in alloc; false; rows.len()]?);
    }
    let tops = tops(alloc, rows)?;
    let mut isolated = vec![in alloc; false; rows.len()]?;
    'nodes: for n in 0..rows.len() {
        note_isolation(&mut isolated, tops[n], rows[n].kind.isolates());
    }
    Ok(isolated)
}

/// Whether a node is an isolated class, or a mark that is written on one names the global key. Where
/// this isn't so, no node asks for isolation.
fn any_isolates(rows: &[Row]) -> bool
    ensures { result ≡ list_any (λ r. is_isolated (kind_of r.kind)
        || marks_global (written_in r.extras)) rows.now }
{
    'rows: for row in rows {
        if row.kind.is_isolated() || marks_global(row.written()) {
            return true;
        }
    }
    false
}

/// Notes that a top-level class holds a node which asks for isolation, if it does.
fn note_isolation(isolated: &mut Vec<bool>, top: Option<u32>, isolates: bool)
    requires { IfSome top (λ t. t < length isolated.old.items) }
    ensures noted { (m : ℕ) → slice_index_or isolated.new.items m false
        ≡ ((is_that top m && isolates) || slice_index_or isolated.old.items m false) }
    ensures fits { length isolated.new.items ≡ length isolated.old.items }
{
    if isolates && let Some(top) = top {
        isolated[top as usize] = true;
    }
}

/// The top-level class that each node is or is a descendant of.
fn tops(alloc: Global, rows: &[Row]) -> Result<Vec<Option<u32>>, AllocError>
    requires tree { IsTree (nodes_in rows.now) }
    requires fits { length rows.now ≤ NODES }
    ensures { IfOk result (λ v. v.items
        ≡ column (λ n. outermost (λ m. true) (path (nodes_in rows.now) n)) (length rows.now)) }
{
    let all = vec![in alloc; true; rows.len()]?;
    outermost(alloc, rows, &all)
}

impl Kind {
    /// Whether the node is an isolated class.
    fn is_isolated(&self) -> bool
        ensures { result ≡ is_isolated (kind_of self.now) }
    {
        matches!(self, Kind::Class { isolated: true, .. })
    }

    /// Whether the node asks for isolation.
    pub(crate) fn isolates(&self) -> bool
        ensures { result ≡ (is_isolated (kind_of self.now)
            || marks_global (kind_marks (kind_of self.now))) }
    {
        self.is_isolated() || marks_global(self.marks())
    }
}

/// Whether marks name the global key.
fn marks_global(marks: &[Mark]) -> bool
    ensures { result ≡ marks_global marks.now }
{
    'marks: for mark in marks {
        if GLOBAL_KEY == mark.key.as_str() {
            return true;
        }
    }
    false
}
