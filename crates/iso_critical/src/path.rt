//! The way back from the end of a run.
ghost use Rattle.std.specs.Prelude.{◌≡◌, IfOk, length};
ghost use Rattle.iso_critical.specs.Bodies.{latest_first};
ghost use Rattle.iso_critical.specs.Critical.{critical};
ghost use Rattle.iso_critical.specs.Paths.{run_with};
ghost use Rattle.iso_plan.specs.RowView.{tree_of};

use crate::body::Body;
use crate::needs::{comes_before, needs_of};
use iso_plan::plan::Plan;
use iso_waits::waits::Waits;
use std::alloc::{AllocError, Global};

/// The critical ones of all bodies, which are given in the order in which they ended, from the last
/// one on. Those that had to end before a body ended before it, so they stand behind it, and one
/// way through all finds each.
pub(crate) fn path(
    alloc: Global,
    plan: &Plan,
    waits: &Waits<'_>,
    holders: &[Option<u32>],
    bodies: &[Body],
) -> Result<Vec<Body>, AllocError>
    requires plan { waits.now.plan ≡ plan.now }
    requires bodies { bodies.now ≡ latest_first waits.now.bodies (length (tree_of plan.now)) }
    ensures { IfOk result (λ v. v.items ≡ critical
        (run_with plan.now waits.now.bodies holders.now)) }
{
    let mut path = Vec::new(alloc);
    let mut next = None;
    for body in bodies {
        if comes_before(plan, next, *body) {
            path.push(*body)?;
            next = Some(needs_of(plan, waits, holders, *body));
        }
    }
    Ok(path)
}
