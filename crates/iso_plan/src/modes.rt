//! The execution mode of each node (JUnit 5 User Guide, parallel execution).
ghost use Rattle.std.specs.Prelude.{◌≡◌, ◌&&◌, ◌||◌, IfOk, cond, length, map, not, unwrap_or};
ghost use Rattle.std.specs.List.{list_any};
ghost use Rattle.iso_model.specs.declared.script.Mode.TheVariants.{SameThread};
ghost use Rattle.iso_plan.specs.Locks.{is_write, locks};
ghost use Rattle.iso_plan.specs.Modes.{forces, mode, nearest_mode};
ghost use Rattle.iso_plan.specs.Paths.{IsTree, column, is_test, path};
ghost use Rattle.iso_plan.specs.RowView.{kind_of, nodes_in};

use crate::lock::{Lock, takes_write};
use crate::repeated::is_test;
use crate::row::Row;
use iso_model::script::Mode;
use iso_model::shared_list::SharedList;
use iso_settings::settings::Settings;
use std::alloc::{AllocError, Global};

/// The mode of each node: its own mark, else the nearest enclosing class's, else the default; the
/// descendants of a node that takes a key for READ_WRITE are on the same thread.
pub(crate) fn modes(
    alloc: Global,
    rows: &[Row],
    settings: Settings,
    taken: &[SharedList<Lock>],
) -> Result<Vec<Mode>, AllocError>
    requires tree { IsTree (nodes_in rows.now) }
    requires taken { taken.now
        ≡ column (locks (nodes_in rows.now)) (length rows.now) }
    ensures { IfOk result (λ v. v.items ≡ column (mode (nodes_in rows.now) settings)
        (length rows.now)) }
{
    if !settings.parallel {
        return Ok(vec![in alloc; Mode::SameThread; rows.len()]?);
    }
    let marked = nearest_modes(alloc, rows)?;
    let forcing = forcing(alloc, rows, taken)?;
    let mut modes = Vec::with_capacity(alloc, rows.len())?;
    modes.push(Mode::SameThread)?;
    'nodes: for n in 1..rows.len() {
        let parent = rows[n].parent as usize;
        modes.push(mode_of(settings, parent == 0, forcing[parent], marked[n]))?;
    }
    Ok(modes)
}

/// The mode of a node that is a top-level class or isn't, is forced onto its parent's thread or
/// isn't, and is marked with a mode or is a descendant of a class that is.
fn mode_of(settings: Settings, top: bool, forced: bool, marked: Option<Mode>) -> Mode
    ensures { result ≡ cond (settings.parallel && not forced)
        (unwrap_or marked (cond top settings.classes_default_mode settings.default_mode))
        SameThread }
{
    if !settings.parallel || forced {
        return Mode::SameThread;
    }
    marked.unwrap_or(if top {
        settings.classes_default_mode
    } else {
        settings.default_mode
    })
}

/// For each node the mode that is marked on it, or on the nearest enclosing class that has one.
fn nearest_modes(alloc: Global, rows: &[Row]) -> Result<Vec<Option<Mode>>, AllocError>
    requires { IsTree (nodes_in rows.now) }
    ensures { IfOk result (λ v. v.items
        ≡ column (λ n. nearest_mode (nodes_in rows.now) (path (nodes_in rows.now) n))
        (length rows.now)) }
{
    let mut marked: Vec<Option<Mode>> = Vec::with_capacity(alloc, rows.len())?;
    marked.push(None)?;
    'nodes: for n in 1..rows.len() {
        let above = marked[rows[n].parent as usize];
        marked.push(rows[n].mode.or(above))?;
    }
    Ok(marked)
}

/// For each node whether it forces its descendants onto its thread.
fn forcing(alloc: Global, rows: &[Row], taken: &[SharedList<Lock>]) -> Result<Vec<bool>, AllocError>
    requires tree { IsTree (nodes_in rows.now) }
    requires taken { taken.now
        ≡ column (locks (nodes_in rows.now)) (length rows.now) }
    ensures { IfOk result (λ v. v.items
        ≡ column (forces (nodes_in rows.now)) (length rows.now)) }
{
    let mut forcing: Vec<bool> = Vec::with_capacity(alloc, rows.len())?;
    forcing.push(false)?;
    'nodes: for n in 1..rows.len() {
        let above = forcing[rows[n].parent as usize];
        forcing.push(forces(&rows[n], above, taken[n].as_slice()))?;
    }
    Ok(forcing)
}

/// Whether a node with these locks forces its descendants onto its thread, where its parent does or
/// doesn't. A test has none, and its locks aren't looked at.
fn forces(row: &Row, above: bool, locks: &[Lock]) -> bool
    ensures { result
        ≡ (not (is_test (kind_of row.now.kind)) && (list_any is_write locks.now || above)) }
{
    !is_test(row) && (takes_write(locks) || above)
}
