//! Who had each key.
ghost use Rattle.std.specs.Prelude.{◌≡◌, IfOk, OnOk, flat_map, length, map};
ghost use Rattle.iso_html.specs.Bars.{key_marks, lock_marks, stay_marks};
ghost use Rattle.iso_html.specs.Lists.{AreLonger};
ghost use Rattle.iso_plan.specs.KeyTable.{keys};
ghost use Rattle.iso_plan.specs.Paths.{column};
ghost use Rattle.iso_plan.specs.RowView.{tree_of};

use crate::bars::taken_mark;
use crate::lists::{empty, put};
use crate::shape::Mark;
use iso_plan::lock::Lock;
use iso_plan::plan::Plan;
use iso_times::times::Times;
use iso_waits::stay::{Stay, stayed};
use std::alloc::{AllocError, Global};

/// The nodes that had each key, in their order, by the keys' numbers.
pub(crate) fn takers(
    alloc: Global,
    plan: &Plan,
    times: &Times,
) -> Result<Vec<Vec<Mark>>, AllocError>
    ensures { IfOk result (λ v. map (λ l. l.items) v.items
        ≡ column (key_marks (tree_of plan.now) times.now) (length (keys (tree_of plan.now)))) }
{
    let mut takers = empty(alloc, plan.key_count())?;
    'nodes: for node in 0..plan.len() {
        add_stay(&mut takers, plan.locks(node), stayed(times, node))?;
    }
    Ok(takers)
}

/// Adds a node that takes these locks, where it was entered.
fn add_stay(
    takers: &mut Vec<Vec<Mark>>,
    locks: &[Lock],
    stay: Option<Stay>,
) -> Result<(), AllocError>
    ensures { OnOk result (AreLonger (map (λ l. l.items) takers.old.items)
        (map (λ l. l.items) takers.new.items)
        (λ key. stay_marks key locks.now stay)) }
{
    match stay {
        Some(stay) => add_locks(takers, locks, stay),
        None => Ok(()),
    }
}

/// Adds a node that took these locks.
fn add_locks(takers: &mut Vec<Vec<Mark>>, locks: &[Lock], stay: Stay) -> Result<(), AllocError>
    ensures { OnOk result (AreLonger (map (λ l. l.items) takers.old.items)
        (map (λ l. l.items) takers.new.items)
        (λ key. flat_map (lock_marks key stay) locks.now)) }
{
    'locks: for lock in locks {
        put(takers, lock.key, taken_mark(stay, lock.access))?;
    }
    Ok(())
}
